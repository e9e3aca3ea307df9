use crate::files::files_of;
use farm_tree::MemoryTree;
use package_folder::{PackageFault, read_package};
use std::alloc::Global;
use std::test::Fail;

/// The files of a package with two tests and the default validator, a line each: the path, and behind `|` what the file
/// holds.
const ECHO: &str = concat!(
    "p/problem.yaml|name: Echo~\n",
    "p/domjudge-problem.ini|timelimit='0.01'~\n",
    "p/data/sample/1.in|3.14~\n",
    "p/data/sample/1.ans|3.14~\n",
    "p/data/secret/01.in|7~\n",
    "p/data/secret/01.ans|7~\n",
    "p/data/secret/01.desc|seven~\n",
);

/// Whether the package cannot be read where the call of this number fails.
fn fails(alloc: Global, failing: u64) -> Result<bool, Fail> {
    let failing = [failing].to_vec(alloc)?;
    let mut tree = MemoryTree::new(alloc, files_of(alloc, ECHO, "")?, failing);
    let read = read_package(alloc, &mut tree, "p", 10_000_000);
    Ok(matches!(read, Err(PackageFault::Tree)))
}

/// Each call of the package's tree fails in turn, and no call is made behind these.
#[test]
fn each_call_of_the_tree_fails(rt: HostRuntime) -> Result<(), Fail> {
    for failing in 0..10u64 {
        assert_eq!(rt; fails(rt.alloc(), failing)?, failing < 9, "{failing}");
    }
    Ok(())
}
