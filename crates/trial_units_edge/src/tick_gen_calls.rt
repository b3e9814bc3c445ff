//! The generated source.

use limits::text::LONGEST_TEXT;
use std::alloc::{AllocError, Global};
use tick_gen::generate;

/// The source with the number 3, by hand.
const THREE: &str = "int cspec q0(int vspec v){return `(v%$2==0);}
int cspec q1(int vspec v){return `(v%$3==0);}
int cspec q2(int vspec v){return `(v%$4==0);}
int count(int (*f)(int)){int i;int n;n=0;for(i=0;i<1000;i++)n=n+f(i);return n;}
int main(){int vspec v;int t;v=param(int,0);t=0;
t=t+count(compile(q0(v),int));
t=t+count(compile(q1(v),int));
t=t+count(compile(q2(v),int));
putint(t);putchar(10);return 0;}
";

fn is_three(alloc: Global) -> Result<bool, AllocError> {
    let text = generate(alloc, 3)?;
    Ok(text.as_slice() == THREE.as_bytes())
}

// How many lines the largest source has, and whether it is short enough for a text.
fn lines_of_largest(alloc: Global) -> Result<(u32, bool), AllocError> {
    let text = generate(alloc, 2000)?;
    let mut lines = 0u32;
    for byte in &text {
        if *byte == b'\n' {
            lines = lines.saturating_add(1);
        }
    }
    Ok((lines, text.len() < LONGEST_TEXT))
}

#[test]
fn sources_have_two_lines_a_test_and_three_besides(rt: HostRuntime) {
    assert!(rt; is_three(rt.alloc()) == Ok(true));
    assert!(rt; lines_of_largest(rt.alloc()) == Ok((4003, true)));
}
