// What a tick brings to a node that had a core.
ghost use Rattle.std.specs.Prelude.{◌≡◌};
ghost use Rattle.dispatch.specs.Closing.{meant};
ghost use Rattle.dispatch.specs.Moves.{said};

// It goes on, or it ended with a branch, which is 0 unless it is an opening.
#[derive(Clone, Copy, Debug, PartialEq, Eq, Drop)]
pub enum Outcome {
    GoesOn,
    Ends { branch: u8 },
}

// 0 says that it goes on, and 1 + b that it ended with the branch b.
impl From<u8> for Outcome {
    ghost from_gives = { λ byte outcome. said outcome ≡ meant byte };

    fn from(byte: u8) -> Outcome {
        match byte {
            0 => Outcome::GoesOn,
            _ => Outcome::Ends { branch: byte - 1 },
        }
    }
}
