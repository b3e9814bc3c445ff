//! How the run goes on: delay slots, and what must not follow what.

ghost use Rattle.std.specs.Prelude.{◌≡◌, ◌+◌, ◌-◌, ◌*◌, ◌/◌, ◌%◌, ◌<◌, ◌≤◌, ◌||◌, ℕ, true, false};
ghost use Rattle.mips_core.specs.Core as spec;
ghost use Rattle.mips_core.specs.Core.{state_of, world_of};

use crate::halt::Went;
use crate::pc::Pc;
use crate::rest::Rest;
use mips_encoder::Register;

impl Rest {
    /// On from a delay slot, or from where something may not have followed, to the address that is answered.
    #[inline(always)]
    pub(crate) fn settle(&mut self, pc: Pc) -> Pc
        requires near { self.old.slot ≡ false → pc < 4294967292 }
        ensures address { result ≡ (spec.at pc self.old).next }
        ensures world { world_of (spec.at result self.new) ≡
            spec.moved ((spec.at pc self.old).next + 4) false (world_of (spec.at pc self.old)) }
    {
        let next = if self.slot { self.target } else { pc.next() };
        self.slot = false;
        self.loaded = 0;
        self.pending = false;
        if self.recent != 0 {
            self.pending = self.recent > 1;
            self.recent -= 1;
        }
        next
    }

    /// On to the next instruction, whose address is answered.
    #[inline(always)]
    pub(crate) fn advance<const ASIDE: bool>(&mut self, pc: Pc) -> Pc
        requires near { pc < 4294967288 }
        requires plain { ASIDE ≡ false → spec.IsClear self.old }
        ensures address { result ≡ (spec.at pc self.old).next }
        ensures world { world_of (spec.at result self.new) ≡
            spec.moved ((spec.at pc self.old).next + 4) false (world_of (spec.at pc self.old)) }
    {
        if ASIDE { self.settle(pc) } else { pc.next() }
    }

    /// The next instruction stands in a delay slot, and behind it the run goes on at a target.
    #[inline(always)]
    pub(crate) fn delay(&mut self, target: Pc)
        ensures { self.new ≡ spec.delayed target self.old }
    {
        self.target = target;
        self.slot = true;
        self.pending = true;
    }

    /// The last instruction loaded the register of this number.
    #[inline(always)]
    pub(crate) fn hold(&mut self, r: usize)
        requires { r < 32 }
        ensures { self.new ≡ spec.held r self.old }
    {
        self.loaded = r as u32;
        self.pending = true;
    }

    /// On to the next instruction, which is a delay slot, and from there to a target if the branch is taken.
    #[inline(always)]
    pub(crate) fn branch<const ASIDE: bool>(&mut self, pc: Pc, taken: bool, target: Pc) -> Went
        requires ready { spec.IsReady ASIDE pc self.old }
        requires slot { self.old.slot ≡ false }
        ensures { spec.Becomes ASIDE (spec.branching taken target (state_of (spec.at pc self.old)))
            result pc self.new }
    {
        let next = self.advance::<ASIDE>(pc);
        let to = if taken { target } else { pc.next().next() };
        if ASIDE {
            self.delay(to);
            Went::Pending(next)
        } else {
            Went::Slot(to)
        }
    }

    /// The instruction before the next read HI or LO.
    #[inline(always)]
    pub(crate) fn set_recent(&mut self, pc: Pc)
        ensures { world_of (spec.at pc self.new) ≡ spec.with_recent 2 (world_of (spec.at pc self.old)) }
    {
        self.recent = 2;
        self.pending = true;
    }

    /// Whether nothing is pending: no register was just loaded, HI and LO may be set, and no delay slot is next.
    #[inline(always)]
    pub(crate) fn is_clear(&self) -> bool
        ensures { result ≡ true → spec.IsClear self.now }
    {
        !self.pending
    }

    /// Whether the last instruction loaded one of these registers.
    #[inline(always)]
    pub(crate) fn is_loaded<const ASIDE: bool>(&self, a: Register, b: Register, c: Register) -> bool
        requires plain { ASIDE ≡ false → spec.IsClear self.now }
        ensures { result ≡ spec.is_loaded self.now.loaded a b c }
    {
        ASIDE
            && self.loaded != 0
            && (a.number() == self.loaded || b.number() == self.loaded || c.number() == self.loaded)
    }

    /// Whether a branch may not be next: in a delay slot, or where the last instruction loaded one of these registers.
    #[inline(always)]
    pub(crate) fn is_branch_hazard<const ASIDE: bool>(
        &self,
        a: Register,
        b: Register,
        c: Register,
    ) -> bool
        requires plain { ASIDE ≡ false → spec.IsClear self.now }
        ensures { result ≡ (self.now.slot || spec.is_loaded self.now.loaded a b c) }
    {
        (ASIDE && self.slot) || self.is_loaded::<ASIDE>(a, b, c)
    }

    /// Whether HI and LO may not be set: one of both was read by one of the last two instructions, or the last one
    /// loaded one of these registers.
    #[inline(always)]
    pub(crate) fn is_halves_hazard<const ASIDE: bool>(&self, a: Register, b: Register) -> bool
        requires plain { ASIDE ≡ false → spec.IsClear self.now }
        ensures { result ≡ (spec.is_recent self.now.recent || spec.is_loaded self.now.loaded a b b) }
    {
        (ASIDE && self.recent != 0) || self.is_loaded::<ASIDE>(a, b, b)
    }
}
