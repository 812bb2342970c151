// Certificates that are checked by kinds of players: how many weights are asked for, and that what is told of each pair
// is what the check pair by pair tells.
use dual::{CertificateTable, MatchingRule, Pool, Wide};
use std::alloc::{AllocError, Global};

// All may meet and may be left over, and all cost the same.
#[derive(Drop)]
struct Even {
    weight: u64,
}

impl MatchingRule for Even {
    ghost use Rattle.std.specs.Prelude.{true};

    ghost costs = { λ t. record {
      meets = λ a b. true;
      weight = λ a b. t.weight;
      may_be_left = λ a. true;
      left_cost = λ a. t.weight;
    } };

    ghost knows = { λ _ _. Unit {0} };

    fn may_meet(&self, _a: u16, _b: u16) -> bool {
        true
    }

    fn weight(&self, _a: u16, _b: u16) -> Wide {
        Wide::from_u64(self.weight)
    }

    fn may_be_left(&self, _a: u16) -> bool {
        true
    }

    fn left_cost(&self, _a: u16) -> Wide {
        Wide::from_u64(self.weight)
    }
}

// Potentials of four players.
fn table_of(alloc: Global, potentials: &[u64]) -> Result<CertificateTable, AllocError> {
    Ok(CertificateTable {
        potentials: potentials
            .iter()
            .map(|number| Wide::from_u64(*number))
            .collect(alloc)?,
        given: Wide::zero(),
        given_left: Wide::zero(),
        sets: Vec::new(alloc),
    })
}

// How many weights are asked for of four players with some classes and potentials; none if something else is told than
// pair by pair.
fn looks_by_class(
    alloc: Global,
    classes: &[u16],
    potentials: &[u64],
) -> Result<Option<u64>, AllocError> {
    let rule = Even { weight: 7 };
    let pool = Pool {
        rule: &rule,
        players: &[0, 1, 2, 3],
    };
    let table = table_of(alloc, potentials)?;
    let (Some(floor), Some(by_class), Some(for_any)) = (
        table.floor(alloc, &pool, 0)?,
        table.floor_by_class(alloc, &pool, 0, classes)?,
        table.floor_for_any_by_class(alloc, &pool, classes)?,
    ) else {
        return Ok(None);
    };
    for a in 0..4 {
        for b in 0..4 {
            let told = floor.slack(a, b);
            if by_class.floor.slack(a, b) != told || for_any.floor.slack(a, b) != told {
                return Ok(None);
            }
        }
    }
    if by_class.looks == for_any.looks {
        Ok(Some(by_class.looks))
    } else {
        Ok(None)
    }
}

// One class, two, one and a player past the end, none, and one class with two potentials.
#[test]
fn checked_by_class(rt: HostRuntime) -> Result<(), AllocError> {
    for (classes, potentials, looks) in [
        ([5; 4].as_slice(), [2; 4].as_slice(), 1),
        ([5, 6, 6, 5].as_slice(), [2; 4].as_slice(), 4),
        ([5; 3].as_slice(), [2; 4].as_slice(), 4),
        ([5; 0].as_slice(), [2; 4].as_slice(), 16),
        ([5; 4].as_slice(), [2, 3, 3, 3].as_slice(), 4),
    ] {
        assert!(rt;
            looks_by_class(rt.alloc(), classes, potentials)? == Some(looks),
            "{looks} weights"
        );
    }
    Ok(())
}
