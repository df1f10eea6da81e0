// The calls that a program in another language makes.
ghost use Rattle.std.specs.Prelude.{Decides};
ghost use Rattle.scene.specs.Scenes.{Agree};
ghost use Rattle.bench_calls.specs.Lent.{lent};
ghost use Rattle.bench_calls.specs.Answered.{Answered};

use crate::scenes::BenchScene;
use graph::consistency::consistent;
use graph::order::{Entry, write_order};

// Whether some placement obeys all rows.
#[unsafe(no_mangle)]
pub extern "C" fn vurkesh_consistent(scene: &BenchScene) -> bool
    ensures { Decides result (Agree (lent scene.now.rows).rows) }
{
    consistent(scene)
}

// Writes the place and the leader of each moment, and answers the number of places. Where the rows clash it writes
// nothing and answers 0, a number for a refusal, since the caller is C.
#[unsafe(no_mangle)]
pub extern "C" fn vurkesh_order(scene: &BenchScene, entries: &mut [Entry; 256]) -> u16
    ensures { Answered (lent scene.now.rows) entries.old entries.new result }
{
    write_order(scene, entries).unwrap_or(0)
}
