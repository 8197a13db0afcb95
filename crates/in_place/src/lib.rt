// The step in place (§12.2): the step of `scanout`, on a state behind `&mut`. Accepted, the state becomes the next one and the answer
// is the clock's levels; refused, the answer is the refusal and the state stays (§9.5).
#![tactic(auto)]

ghost use Rattle.std.specs.Prelude.{◌≡◌};
ghost use Rattle.registers.specs.Refusals.{answer};
ghost use Rattle.drawing.specs.Colour.{contents};
ghost use Rattle.in_place.specs.Stepping.{placed, leaving, step_in_place};

use drawing::Lent;
use registers::refusal::Refusal;
use scanout::state::State;
use scanout::step::step;
use signals::clock::Clock;

// What a step answers, and the state that it leaves.
#[derive(Clone, Copy)]
pub struct Placed {
    pub answer: Result<Clock, Refusal>,
    pub state: State,
}

// Steps the state behind `s` by one clock: the levels, or the refusal, as `step` gives them (§7.3).
pub fn step_in_place(s: &mut State, lent: Lent) -> Result<Clock, Refusal>
    ensures { leaving (answer result) s.new ≡ step_in_place s.old (contents lent.entry) }
{
    let shown = step(*s, lent)?;
    *s = shown.next;
    Ok(shown.clock)
}

// One step in place of a state in a local: the answer and the state that it leaves.
pub fn step_local(s: State, lent: Lent) -> Placed
    ensures { placed result ≡ step_in_place s (contents lent.entry) }
{
    let mut state = s;
    let answer = step_in_place(&mut state, lent);
    Placed { answer, state }
}
