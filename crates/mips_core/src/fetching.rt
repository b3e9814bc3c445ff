//! Fetching, and the loop.

ghost use Rattle.std.specs.Prelude.{◌≡◌, ◌≢◌, ◌<◌, ◌≤◌, ◌-◌, ◌+◌, ℕ, true, false, length, None, Some, IfOk, IfSome, Ok};
ghost use Rattle.std.specs.Prelude.{Err};
ghost use Rattle.word32.specs.declared.map.TheConstants.{ARENA, TEXT_WORDS};
ghost use Rattle.flat_memory.specs.Spaces.{text_of};
ghost use Rattle.mips_model.specs.Steps as steps;
ghost use Rattle.mips_core.specs.Core as spec;
ghost use Rattle.mips_model.specs.Beside.{is_at_service};
ghost use Rattle.mips_core.specs.Core.{state_of, world_of};

use crate::course::Course;
use crate::halt::Went;
use crate::pc::Pc;
use crate::rest::Rest;
use host_edge::MachineKind;
use word32::map;

/// The word of the text at an address: none where the address is no multiple of 4 or lies outside the text.
#[inline(always)]
fn text_word(text: &[u32], pc: Pc) -> Option<u32>
    requires { length text.now ≤ TEXT_WORDS }
    ensures word { result ≡ spec.text_fetched text.now pc }
    ensures below { IfSome result (λ w. pc < ARENA) }
    ensures apart { IfSome result (λ w. spec.IsApart pc) }
{
    let i = pc.place();
    if i < text.len() { Some(text[i]) } else { None }
}

impl Rest {
    /// The word at an address that isn't in the text, or why none is executed there.
    #[inline(always)]
    fn fetch_from_arena(&self, pc: Pc) -> Result<u32, MachineKind>
        ensures { result ≡ spec.word_past_text (state_of self.now).code pc }
    {
        let from = pc.address().wrapping_sub(map::ARENA);
        let i = from / 4 + from % 4 * 0x4000_0000;
        if i < map::ARENA_WORDS {
            match self.arena.fetch(i) {
                Ok(w) => Ok(w),
                Err(_) => Err(MachineKind::Stale),
            }
        } else {
            Err(MachineKind::Fetch)
        }
    }

    /// The next word, where it isn't of the text or the count is spent. A call, so that a word of the text is loaded
    /// where it is found to be one.
    #[cold]
    #[inline(never)]
    fn word_elsewhere(&self, text: &[u32], at: &Course) -> Option<u32>
        requires text { text_of text.now ≡ (state_of self.now).code.text }
        requires fits { length text.now ≤ TEXT_WORDS }
        ensures some { IfSome result (λ w. 0 < at.now.left) }
        ensures word { IfSome result (λ w. steps.word_at (state_of self.now).code at.now.pc ≡ Ok w) }
        ensures near { IfSome result (λ w. at.now.pc < 4294967288) }
        ensures apart { IfSome result (λ w. spec.IsApart at.now.pc) }
        ensures none { result ≡ None → 0 < at.now.left →
            spec.word_of (steps.word_at (state_of self.now).code at.now.pc) ≡ None }
    {
        if at.left() == 0 {
            return None;
        }
        match text_word(text, at.pc()) {
            Some(w) => Some(w),
            None => match self.fetch_from_arena(at.pc()) {
                Ok(w) => Some(w),
                Err(_) => None,
            },
        }
    }

    /// The next word, if one is executed there and the count isn't spent.
    #[inline(always)]
    fn fetch(&self, text: &[u32], at: &Course) -> Option<u32>
        requires text { text_of text.now ≡ (state_of self.now).code.text }
        requires fits { length text.now ≤ TEXT_WORDS }
        requires reach { at.now.reach ≤ length text.now }
        ensures some { IfSome result (λ w. 0 < at.now.left) }
        ensures word { IfSome result (λ w. steps.word_at (state_of self.now).code at.now.pc ≡ Ok w) }
        ensures near { IfSome result (λ w. at.now.pc < 4294967288) }
        ensures apart { IfSome result (λ w. spec.IsApart at.now.pc) }
        ensures none { result ≡ None → 0 < at.now.left →
            spec.word_of (steps.word_at (state_of self.now).code at.now.pc) ≡ None }
    {
        match at.word(text) {
            Some(w) => Some(w),
            None => self.word_elsewhere(text, at),
        }
    }

    /// No word is next: the count is spent, or the machine refuses to fetch.
    #[cold]
    #[inline(never)]
    fn refuse(&mut self, at: &Course) -> Went
        requires on { self.old.stopped ≡ None }
        requires none { 0 < at.now.left → spec.word_of (steps.word_at (state_of self.old).code at.now.pc) ≡ None }
        ensures spent { at.now.left ≡ 0 → (result ≡ Went.Service) × (self.new ≡ self.old) }
        ensures service { 0 < at.now.left → is_at_service (state_of (spec.at at.now.pc self.old)) ≡ false }
        ensures world { 0 < at.now.left →
            world_of (spec.at at.now.pc self.new) ≡ steps.step (world_of (spec.at at.now.pc self.old)) }
        ensures went { 0 < at.now.left → (result ≡ Went.Stopped) × (self.new.stopped ≢ None) }
    {
        if at.left() == 0 {
            return Went::Service;
        }
        match self.fetch_from_arena(at.pc()) {
            Ok(_) => unreachable!(),
            Err(kind) => self.fault(kind, at.pc()),
        }
    }

    /// One instruction where nothing is pending, unless it is SYSCALL or the count is spent.
    #[inline(always)]
    fn step(&mut self, text: &[u32], at: &Course) -> Went
        requires on { self.old.stopped ≡ None }
        requires clear { spec.IsClear self.old }
        requires text { text_of text.now ≡ (state_of self.old).code.text }
        requires fits { length text.now ≤ TEXT_WORDS }
        requires reach { at.now.reach ≤ length text.now }
        ensures spent { at.now.left ≡ 0 → (result ≡ Went.Service) × (self.new ≡ self.old) }
        ensures service { 0 < at.now.left → is_at_service (state_of (spec.at at.now.pc self.old)) ≡ true →
            (result ≡ Went.Service) × (self.new ≡ self.old) }
        ensures other { 0 < at.now.left → is_at_service (state_of (spec.at at.now.pc self.old)) ≡ false →
            (world_of (spec.behind result at.now.pc self.new) ≡ steps.step (world_of (spec.at at.now.pc self.old)))
            × spec.Leaves false result at.now.pc self.new }
        ensures near { result ≢ Went.Stopped → 0 < at.now.left → at.now.pc < 4294967288 }
    {
        match self.fetch(text, at) {
            Some(w) => self.execute::<false>(at.pc(), w),
            None => self.refuse(at),
        }
    }

    /// The instruction of this word where something is pending, unless it is SYSCALL.
    #[cold]
    #[inline(never)]
    fn step_aside(&mut self, pc: Pc, w: u32) -> Went
        requires on { self.old.stopped ≡ None }
        requires near { pc < 4294967288 }
        requires apart { spec.IsApart pc }
        requires word { steps.word_at (state_of self.old).code pc ≡ Ok w }
        ensures service { is_at_service (state_of (spec.at pc self.old)) ≡ true →
            (result ≡ Went.Service) × (self.new ≡ self.old) }
        ensures other { is_at_service (state_of (spec.at pc self.old)) ≡ false →
            (world_of (spec.behind result pc self.new) ≡ steps.step (world_of (spec.at pc self.old)))
            × spec.Leaves true result pc self.new }
    {
        self.execute::<true>(pc, w)
    }

    /// On behind an instruction that was executed where nothing was pending, and past a nop if one is next while
    /// something is; it answers whether nothing is pending.
    #[inline(always)]
    fn follow(&mut self, text: &[u32], at: &mut Course, went: Went) -> bool
        requires runs { went ≢ Went.Stopped }
        requires leaves { spec.Leaves false went at.old.pc self.old }
        requires some { 0 < at.old.left }
        requires near { at.old.pc < 4294967288 }
        requires text { text_of text.now ≡ (state_of self.old).code.text }
        requires fits { length text.now ≤ TEXT_WORDS }
        requires reach { at.old.reach ≤ length text.now }
        ensures reach { at.new.reach ≤ length text.now }
        ensures goes { spec.Follows (spec.behind went at.old.pc self.old) (at.old.left - 1) result
            at.new.pc at.new.left self.new }
    {
        match went {
            Went::On(_) => {
                at.go_straight();
                true
            }
            Went::Slot(target) => {
                at.go_straight();
                match at.word(text) {
                    Some(0) => {
                        at.go_to(text, target);
                        true
                    }
                    _ => {
                        self.delay(target);
                        false
                    }
                }
            }
            Went::Loaded(r) => {
                at.go_straight();
                match at.word(text) {
                    Some(0) => {
                        at.go_straight();
                        true
                    }
                    _ => {
                        self.hold(r);
                        false
                    }
                }
            }
            Went::Pending(_) => {
                at.go_straight();
                false
            }
            Went::Stopped | Went::Service => unreachable!(),
        }
    }

    /// Executes up to n instructions until the machine stops or a SYSCALL is next, and answers how many of n are left.
    #[inline(never)]
    pub(crate) fn go_on(&mut self, text: &[u32], n: u64) -> u64
        requires on { self.old.stopped ≡ None }
        requires text { text_of text.now ≡ (state_of self.old).code.text }
        requires fits { length text.now ≤ TEXT_WORDS }
        ensures within { result ≤ n }
        ensures ran { spec.GoesOn (n - result) self.old self.new }
        ensures pauses { spec.Pauses result self.new }
        ensures next { result ≢ 0 → self.new.stopped ≡ None → self.new.next < 4294967296 }
        ensures text { text_of text.now ≡ (state_of self.new).code.text }
    {
        let mut at = Course::new(text, self.pc(), n);
        let mut clear = self.is_clear();
        loop {
            while clear {
                match self.step(text, &at) {
                    Went::Stopped => {
                        self.stand(at.pc());
                        return at.left() - 1;
                    }
                    Went::Service => {
                        self.stand(at.pc());
                        return at.left();
                    }
                    other => clear = self.follow(text, &mut at, other),
                }
            }
            match self.fetch(text, &at) {
                None => {
                    let went = self.refuse(&at);
                    self.stand(at.pc());
                    return match went {
                        Went::Stopped => at.left() - 1,
                        _ => 0,
                    };
                }
                Some(0) => {
                    let next = self.settle(at.pc());
                    at.go_to(text, next);
                    clear = self.is_clear();
                }
                Some(w) => match self.step_aside(at.pc(), w) {
                    Went::On(next) | Went::Pending(next) => {
                        at.go_to(text, next);
                        clear = self.is_clear();
                    }
                    Went::Slot(_) | Went::Loaded(_) => unreachable!(),
                    Went::Stopped => {
                        self.stand(at.pc());
                        return at.left() - 1;
                    }
                    Went::Service => {
                        self.stand(at.pc());
                        return at.left();
                    }
                },
            }
        }
    }
}
