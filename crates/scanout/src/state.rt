// The state of a scan (§7.1).
ghost use Rattle.std.specs.Prelude.{◌≡◌, ◌+◌, ◌%◌, ◌<◌, ◌≤◌};
ghost use Rattle.scanout.specs.Core.{moved};
ghost use Rattle.scanout.specs.State.{state_of, entries_of, with_viewport, viewport_of, frame_of, shown_words, shown_screen};

use memory::Screen;
use panel::timing::frame_clocks;
use registers::Words;

// Where the picture begins and ends: LCDSADDR1 and LCDSADDR2.
#[derive(Clone, Copy, PartialEq, Eq)]
pub struct Viewport {
    pub lcdsaddr1: u32,
    pub lcdsaddr2: u32,
}

// The screen in force, the pending viewport, which takes over with a frame's first clock (§7.6), and the position: the number of the
// next clock in its frame.
#[derive(Clone, Copy)]
pub struct State {
    pub screen: Screen,
    pub pending: Viewport,
    pub position: u32,
}

// As it lies in 13 entries (§10.4): 0 to 8 the nine words in force, 9 the window start, 10 and 11 the pending LCDSADDR1 and LCDSADDR2,
// 12 the position.
impl From<[u32; 13]> for State {
    ghost from_gives = { λ n s. s ≡ state_of n };

    fn from(entries: [u32; 13]) -> State {
        let nine = entries.first_chunk().unwrap();
        State {
            screen: Screen {
                words: Words::from(*nine),
                window_start: entries[9],
            },
            pending: Viewport {
                lcdsaddr1: entries[10],
                lcdsaddr2: entries[11],
            },
            position: entries[12],
        }
    }
}

impl From<State> for [u32; 13] {
    ghost from_gives = { λ s n. n ≡ entries_of s };

    fn from(s: State) -> [u32; 13] {
        let w = s.screen.words;
        [
            w.lcdcon1,
            w.lcdcon2,
            w.lcdcon3,
            w.lcdcon4,
            w.lcdcon5,
            w.lcdsaddr1,
            w.lcdsaddr2,
            w.lcdsaddr3,
            w.tpal,
            s.screen.window_start,
            s.pending.lcdsaddr1,
            s.pending.lcdsaddr2,
            s.position,
        ]
    }
}

// The viewport in the words.
pub fn viewport_of(w: Words) -> Viewport
    ensures { result ≡ viewport_of w }
{
    Viewport {
        lcdsaddr1: w.lcdsaddr1,
        lcdsaddr2: w.lcdsaddr2,
    }
}

// The words with another viewport.
pub fn with_viewport(w: Words, v: Viewport) -> Words
    ensures { result ≡ with_viewport w v }
{
    Words {
        lcdsaddr1: v.lcdsaddr1,
        lcdsaddr2: v.lcdsaddr2,
        ..w
    }
}

// The words that the next clock is shown with: a frame's first clock is shown with the pending viewport (§7.6).
#[tactic(auto, unfolding(crate::specs::State::shown_words))]
pub fn shown_words(s: State) -> Words
    ensures { result ≡ shown_words s }
{
    let begins = s.position == 0;
    if begins {
        return with_viewport(s.screen.words, s.pending);
    }
    s.screen.words
}

// The screen that the next clock is shown with.
pub fn shown_screen(s: State) -> Screen
    ensures { result ≡ shown_screen s }
{
    Screen {
        words: shown_words(s),
        ..s.screen
    }
}

// The position `count` clocks on, in a frame of `frame` clocks: after the last comes clock 0.
fn position_after(position: u32, count: u32, frame: u32) -> u32
    requires { (0 < frame) × (position + count ≤ frame) }
    ensures { result ≡ (position + count) % frame }
{
    let next = position + count;
    if next == frame { 0 } else { next }
}

// The state `count` clocks on, all of one frame.
pub(crate) fn moved(s: State, count: u32) -> State
    requires { s.position + count ≤ frame_of s }
    ensures { result ≡ moved count s }
{
    State {
        screen: shown_screen(s),
        position: position_after(s.position, count, frame_clocks(s.screen.words)),
        ..s
    }
}
