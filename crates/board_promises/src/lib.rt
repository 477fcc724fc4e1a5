// The harbour board, and what its calls answer; the promises are in specs/.
#![tactic(auto)]

use answer::Refusal;

// The bytes that the files stand in, as specs/Boards has them.
pub const FILES_SIZE: usize = 131232;

// Who is present, the two values of each one's monitor, and the lowest grade among those whose since is not none, or 4.
#[derive(Clone, Copy)]
pub struct Board {
    pub present: [bool; 8],
    pub before: [usize; 8],
    pub since: [usize; 8],
    pub lowest: usize,
}

// An enum of its own and no Result, as each call's answer is.
#[derive(Clone, Copy)]
pub enum Notice {
    Done,
    Refused {
        refusal: Refusal,
        input: usize,
        place: usize,
    },
}

// What a call hands back: a board, which is the one that it got where it was refused.
#[derive(Drop)]
pub struct Posted {
    pub board: Board,
    pub notice: Notice,
}
