//! The one call of `farm_main` in these tests: its check takes minutes.
ghost use Rattle.std.specs.Prelude.{◌≤◌};

use exit_status::Exit;
use farm_cli::farm_main;
use farm_io::{Door, FixedClock, Link, Sink, Source};
use farm_tree::Tree;
use judgehost::Gate;
use people::Nobody;
use record_store::MemoryDisk;
use remote_host::NoPause;
use std::alloc::Global;
use std::sync::Wait;
use std::thread::Threads;

/// How the command of these words ends. Time stands still, and nobody is told anything.
pub(crate) fn end_with<T: Tree, S: Source, K: Sink, D: Door, G: Gate + Sync, N: Link>(
    rt: &(impl Threads + Wait + Sync),
    alloc: Global,
    words: &[String],
    tree: &mut T,
    input: &mut S,
    out: &mut K,
    door: &mut D,
    gate: &G,
    link: &mut N,
    disk: &mut MemoryDisk,
) -> Exit
where
    D::Conn: Drop,
    requires door { (D.state door.old).returned ≤ (D.state door.old).accepted }
    requires link { (N.state link.old).returned ≤ (N.state link.old).accepted }
{
    farm_main(
        rt,
        alloc,
        words,
        tree,
        input,
        out,
        &FixedClock::new(0),
        door,
        gate,
        &mut Nobody,
        link,
        &NoPause,
        disk,
    )
}
