// The calls of a scan (§7). State and picture are kept from line to line: each call gets what the call before it left.
use super::case::Case;
use super::text::{number_at, word_at};
use in_place::step_local;
use registers::refusal::Refusal;
use scanout::run::run;
use scanout::start::start;
use scanout::state::{State, Viewport};
use scanout::step::step;
use scanout::viewport::change_viewport;
use signals::clock::Clock;
use std::alloc::{AllocError, Global};
use std::{array, io};

// The state of the scan, and the picture that runs are lent.
#[derive(Drop)]
pub(crate) struct Scan {
    state: State,
    picture: Vec<u32>,
}

// The state in a line's numbers, a missing one of which is 0.
fn state_in(numbers: &[u64]) -> State {
    let entries: [u32; 13] = array::from_fn(|k| word_at(numbers, k));
    State::from(entries)
}

impl<R: Print + AllocGlobal> Case<'_, R> {
    // Whether the line expects a step with these levels, or this refusal.
    fn clock_agrees(&self, answer: Result<Clock, Refusal>) -> io::Result<bool> {
        let levels = answer.map(|clock| [clock.vsync, clock.hsync, clock.vden, clock.vd]);
        let values = levels.map(|levels| levels.map(u64::from));
        self.gives(&["VSYNC", "HSYNC", "VDEN", "VD"], values)
    }

    fn same_state(&self, got: State, due: State) -> io::Result<bool> {
        let got: [u32; 13] = got.into();
        let due: [u32; 13] = due.into();
        self.same_entries(&got, &due)
    }

    // Whether the step in place (§12.2) answers what is due and leaves the state that the plain step leaves.
    fn in_place_agrees(&self, old: State, plain: State) -> io::Result<bool> {
        let placed = step_local(old, self.settings.lent_to_scan());
        let right = self.clock_agrees(placed.answer)?;
        if self.same_state(placed.state, plain)? & right {
            return Ok(true);
        }
        self.name_form("step in place")?;
        Ok(false)
    }
}

impl Scan {
    // Before any line the state is all 0, so every call refuses it.
    pub(crate) fn new(alloc: Global) -> Scan {
        Scan {
            state: State::from([0; 13]),
            picture: Vec::new(alloc),
        }
    }

    // A line `state ..` brings a state from outside, a line `canvas LENGTH VALUE` a fresh picture, of 1,024 entries at most.
    pub(crate) fn set(
        &mut self,
        alloc: Global,
        key: &[u8],
        numbers: &[u64],
    ) -> Result<(), AllocError> {
        match key {
            b"state" => self.state = state_in(numbers),
            b"canvas" => {
                let length = number_at(numbers, 0).min(1024) as usize;
                self.picture = vec![in alloc; word_at(numbers, 1); length]?;
            }
            _ => {}
        }
        Ok(())
    }

    // Keeps the state that an accepted call leaves, and compares its answer, which has no value.
    fn moves(
        &mut self,
        case: &Case<'_, impl Print + AllocGlobal>,
        answer: Result<State, Refusal>,
    ) -> io::Result<bool> {
        self.state = answer.unwrap_or(self.state);
        case.gives(&[], answer.map(|_| []))
    }

    pub(crate) fn begin_agrees(
        &mut self,
        case: &Case<'_, impl Print + AllocGlobal>,
    ) -> io::Result<bool> {
        let s = case.settings;
        let answer = start(&s.words, s.window_start, s.lent_to_scan().video);
        self.moves(case, answer)
    }

    pub(crate) fn step_agrees(
        &mut self,
        case: &Case<'_, impl Print + AllocGlobal>,
    ) -> io::Result<bool> {
        let old = self.state;
        let shown = step(old, case.settings.lent_to_scan());
        self.state = shown.map_or(old, |shown| shown.next);
        let plain = case.clock_agrees(shown.map(|shown| shown.clock))?;
        Ok(case.in_place_agrees(old, self.state)? & plain)
    }

    // Lends the picture, for as many clocks as the line's first number says.
    pub(crate) fn run_agrees(
        &mut self,
        case: &Case<'_, impl Print + AllocGlobal>,
    ) -> io::Result<bool> {
        let lent = case.settings.lent_to_scan();
        let taken = run(self.state, lent, case.given(0), &mut self.picture);
        self.state = taken.map_or(self.state, |taken| taken.next);
        case.gives(&["value"], taken.map(|taken| [taken.count]))
    }

    pub(crate) fn view_agrees(
        &mut self,
        case: &Case<'_, impl Print + AllocGlobal>,
    ) -> io::Result<bool> {
        let viewport = Viewport {
            lcdsaddr1: case.given_word(0),
            lcdsaddr2: case.given_word(1),
        };
        let video = case.settings.lent_to_scan().video;
        let answer = change_viewport(self.state, video, viewport);
        self.moves(case, answer)
    }

    // The line lists the state's numbers.
    pub(crate) fn at_agrees(&self, case: &Case<'_, impl Print + AllocGlobal>) -> io::Result<bool> {
        let numbers: [u32; 13] = self.state.into();
        case.list_agrees(&numbers)
    }

    // The line lists every entry of the picture.
    pub(crate) fn shows_agrees(
        &self,
        case: &Case<'_, impl Print + AllocGlobal>,
    ) -> io::Result<bool> {
        case.list_agrees(&self.picture)
    }
}
