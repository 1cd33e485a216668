//! What is known of the moves that were read so far.
ghost use Rattle.std.specs.Prelude.{◌≡◌, ◌-◌, ◌<◌, ◌^◌, None};
ghost use Rattle.plan_verify.specs.Judgement.{added, first_out};

/// The first move that doesn't stay inside: its number among those that extrude, and its line's, each from 1.
#[derive(Clone, Copy)]
pub struct Out {
    pub number: u64,
    pub line: u32,
}

/// How many moves extrude, and which of them is the first that doesn't stay inside.
#[derive(Clone, Copy)]
pub struct Judgement {
    pub moves: u64,
    pub out: Option<Out>,
}

impl Judgement {
    /// Of no moves.
    pub fn none() -> Judgement
        ensures { result ≡ record { moves = 0; out = None } }
    {
        Judgement {
            moves: 0,
            out: None,
        }
    }

    /// With one move more, which stands in this line.
    pub fn with(self, stays: bool, line: u32) -> Judgement
        requires { self.moves < 2 ^ 64 - 1 }
        ensures { result ≡ added self stays line }
    {
        let moves = self.moves + 1;
        Judgement {
            moves,
            out: if stays {
                self.out
            } else {
                self.first_out(moves, line)
            },
        }
    }

    fn first_out(self, number: u64, line: u32) -> Option<Out>
        ensures { result ≡ first_out self.out number line }
    {
        match self.out {
            Some(out) => Some(out),
            None => Some(Out { number, line }),
        }
    }
}
