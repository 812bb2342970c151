// A set of start ranks, specified by the test of each.
ghost use Rattle.std.specs.Prelude.{◌≡◌, vec_len};

/// Start ranks, which have four digits at most.
#[derive(Drop)]
pub(crate) struct StartRanks {
    // by start rank: whether it is one of them
    pub(crate) marks: Vec<bool>,
    ghost all: { vec_len marks ≡ 10000 },
}
