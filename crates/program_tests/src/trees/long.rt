// Runs with long names, and with many.
use super::bytes::GOOD;
use super::rows::{HEADER, MODE};
use super::runs::{Answer, expect_run};
use dcm_test_devices::{joined, numbered, repeated, split};
use dcm_test_trees::{MemoryTree, Node, SOUND, Tree};
use std::alloc::{AllocError, Global};
use std::test::Fail;

/// The status of a run that leaves a name out.
const LEFT_OUT: u8 = 4;

/// Puts the file into a tree.
fn put_good(alloc: Global, tree: &mut Tree, folder: &[u8], name: &[u8]) -> Result<(), AllocError> {
    let path = joined(alloc, folder, name)?;
    tree.put(path.as_slice(), GOOD.file(alloc, MODE)?)
}

impl Answer {
    /// That of a run of which nothing is known but what is left.
    fn leaving(alloc: Global, status: u8, tree: Tree) -> Result<Self, AllocError> {
        Ok(Answer {
            status,
            output: HEADER.as_bytes().to_vec(alloc)?,
            told: Vec::new(alloc),
            tree,
        })
    }

    /// Adds the row of a name that is the end of it.
    fn add_row(&mut self, name: &[u8], end: &[u8]) -> Result<(), AllocError> {
        self.output.push(b'"')?;
        self.output.extend_from_slice(name)?;
        self.output.extend_from_slice(end)?;
        Ok(())
    }

    /// Adds the row of a name whose output has it.
    fn add_written(&mut self, name: &[u8]) -> Result<(), AllocError> {
        self.add_row(name, b"\",\"")?;
        self.output.extend_from_slice(name)?;
        self.output.extend_from_slice(b"\",\"written\"\n")
    }

    /// Adds the row of a name without output, and the line of it.
    fn add_lost(&mut self, name: &[u8], end: &[u8], line: &[u8]) -> Result<(), AllocError> {
        self.add_row(name, end)?;
        self.told.extend_from_slice(b"dcmtools: ")?;
        self.told.extend_from_slice(name)?;
        self.told.extend_from_slice(line)
    }

    /// Adds the row and the line of a name that is too long.
    fn add_unfit(&mut self, name: &[u8]) -> Result<(), AllocError> {
        self.add_lost(name, b"\",,\"left-out\"\n", b": name does not fit\n")
    }

    /// Adds the row and the line of a name whose output would be too long.
    fn add_unwritten(&mut self, name: &[u8]) -> Result<(), AllocError> {
        self.add_lost(name, b"\",,\"unwritten\"\n", b": output cannot be opened\n")
    }
}

/// Expects the answer of a run of words over a tree.
fn expect_line(alloc: Global, line: &'static str, tree: Tree, wanted: &Answer) -> Result<(), Fail> {
    let words = split(alloc, line)?;
    let system = MemoryTree::new(alloc, tree, Vec::new(alloc), SOUND);
    expect_run(alloc, line, words.as_slice(), system, wanted)
}

/// Sixty-three folders in one another, and a file and a folder with a file in the last of them. With the first folder,
/// these are the sixty-four that are entered.
fn deep_tree(alloc: Global, deep: &[u8]) -> Result<Tree, AllocError> {
    let mut tree = Tree::new(alloc)?;
    put_good(
        alloc,
        &mut tree,
        b"in/",
        joined(alloc, deep, b"/a")?.as_slice(),
    )?;
    put_good(
        alloc,
        &mut tree,
        b"in/",
        joined(alloc, deep, b"/d/a")?.as_slice(),
    )?;
    Ok(tree)
}

#[test]
fn deep_folders(rt: HostRuntime) -> Result<(), Fail> {
    let alloc = rt.alloc();
    let deep = repeated(alloc, b"", b"d/", 62, b"d")?;
    let deep = deep.as_slice();
    let entered = joined(alloc, deep, b"/a")?;
    let mut tree = deep_tree(alloc, deep)?;
    put_good(alloc, &mut tree, b"out/", entered.as_slice())?;
    let mut wanted = Answer::leaving(alloc, LEFT_OUT, tree)?;
    wanted.add_written(entered.as_slice())?;
    wanted.add_lost(
        joined(alloc, deep, b"/d")?.as_slice(),
        b"\",,\"left-out\"\n",
        b": folder is too deep\n",
    )?;
    expect_line(alloc, "dcmconv +r in out", deep_tree(alloc, deep)?, &wanted)
}

/// A folder in twenty others, with names of 200 bytes each: 4,020 bytes.
fn far(alloc: Global) -> Result<Vec<u8>, AllocError> {
    let folder = repeated(alloc, b"", b"x", 200, b"/")?;
    repeated(alloc, b"", folder.as_slice(), 20, b"")
}

/// Four files there: one with a short name, one whose path has 4,095 bytes, and whose output would have one more, one
/// whose path is longer by one, and one in a folder whose path is longer still.
fn far_tree(alloc: Global, far: &[u8]) -> Result<Tree, AllocError> {
    let mut tree = Tree::new(alloc)?;
    for name in [
        repeated(alloc, far, b"a", 1, b"")?,
        repeated(alloc, far, b"y", 72, b"")?,
        repeated(alloc, far, b"z", 73, b"")?,
        repeated(alloc, far, b"w", 200, b"/a")?,
    ] {
        put_good(alloc, &mut tree, b"in/", name.as_slice())?;
    }
    Ok(tree)
}

#[test]
fn long_paths(rt: HostRuntime) -> Result<(), Fail> {
    let alloc = rt.alloc();
    let far = far(alloc)?;
    let far = far.as_slice();
    let first = repeated(alloc, far, b"a", 1, b"")?;
    let mut tree = far_tree(alloc, far)?;
    put_good(alloc, &mut tree, b"out/", first.as_slice())?;
    let mut wanted = Answer::leaving(alloc, LEFT_OUT, tree)?;
    wanted.add_written(first.as_slice())?;
    wanted.add_unwritten(repeated(alloc, far, b"y", 72, b"")?.as_slice())?;
    wanted.add_unfit(repeated(alloc, far, b"z", 73, b"")?.as_slice())?;
    wanted.add_unfit(repeated(alloc, far, b"w", 76, b"")?.as_slice())?;
    expect_line(alloc, "dcmconv +r in out", far_tree(alloc, far)?, &wanted)
}

/// Two files there whose names have more than 4,096 bytes. The first 4,096 are of part 1 and of part 2 of two, and all
/// bytes of the names of the other.
fn parted_tree(alloc: Global, far: &[u8]) -> Result<Tree, AllocError> {
    let mut tree = Tree::new(alloc)?;
    let first = joined(alloc, far, b"a")?;
    let first = repeated(alloc, first.as_slice(), b"b", 199, b"a")?;
    let second = repeated(alloc, far, b"a", 201, b"")?;
    put_good(alloc, &mut tree, b"in/", first.as_slice())?;
    put_good(alloc, &mut tree, b"in/", second.as_slice())?;
    Ok(tree)
}

/// Expects that of these files a part leaves out the one of this name, of which it shows the first bytes.
fn expect_part(alloc: Global, line: &'static str, far: &[u8], shown: &[u8]) -> Result<(), Fail> {
    let mut tree = parted_tree(alloc, far)?;
    tree.put(b"out", Node::folder(0o755))?;
    let mut wanted = Answer::leaving(alloc, LEFT_OUT, tree)?;
    wanted.add_unfit(shown)?;
    expect_line(alloc, line, parted_tree(alloc, far)?, &wanted)
}

#[test]
fn parts_of_long_names(rt: HostRuntime) -> Result<(), Fail> {
    let alloc = rt.alloc();
    let far = far(alloc)?;
    let far = far.as_slice();
    let first = joined(alloc, far, b"a")?;
    let first = repeated(alloc, first.as_slice(), b"b", 75, b"")?;
    let second = repeated(alloc, far, b"a", 76, b"")?;
    expect_part(alloc, "dcmconv +part 1/2 +r in out", far, first.as_slice())?;
    expect_part(alloc, "dcmconv +part 2/2 +r in out", far, second.as_slice())
}

/// A file, and a list of it and of two names that are too long, one by a byte.
fn listed_tree(alloc: Global) -> Result<Tree, AllocError> {
    let mut list = repeated(alloc, b"", b"y", 4096, b"\n")?;
    list.extend_from_slice(repeated(alloc, b"", b"y", 5000, b"\nin/a\n")?.as_slice())?;
    let mut tree = Tree::new(alloc)?;
    put_good(alloc, &mut tree, b"in/", b"a")?;
    tree.put(b"list", Node::file(alloc, list.as_slice(), MODE)?)?;
    Ok(tree)
}

#[test]
fn long_lines_of_a_list(rt: HostRuntime) -> Result<(), Fail> {
    let alloc = rt.alloc();
    let mut tree = listed_tree(alloc)?;
    put_good(alloc, &mut tree, b"out/in/", b"a")?;
    let mut wanted = Answer::leaving(alloc, LEFT_OUT, tree)?;
    let shown = repeated(alloc, b"", b"y", 4096, b"")?;
    wanted.add_unfit(shown.as_slice())?;
    wanted.add_unfit(shown.as_slice())?;
    wanted.add_written(b"in/a")?;
    expect_line(alloc, "dcmconv +r @list out", listed_tree(alloc)?, &wanted)
}

/// How many files are counted before counts are shown.
const MANY: usize = 100;

/// So many files.
fn many_tree(alloc: Global) -> Result<Tree, AllocError> {
    let mut tree = Tree::new(alloc)?;
    for number in 0..MANY {
        put_good(
            alloc,
            &mut tree,
            b"in/",
            numbered(alloc, b"", number, b"")?.as_slice(),
        )?;
    }
    Ok(tree)
}

#[test]
fn counts_after_a_hundred_files(rt: HostRuntime) -> Result<(), Fail> {
    let alloc = rt.alloc();
    let mut wanted = Answer::leaving(alloc, 0, many_tree(alloc)?)?;
    for number in 0..MANY {
        let name = numbered(alloc, b"", number, b"")?;
        put_good(alloc, &mut wanted.tree, b"out/", name.as_slice())?;
        wanted.add_written(name.as_slice())?;
    }
    wanted.told.extend_from_slice(
        b"100 files, 100 written, 0 there, 0 not done\r100 files, 100 written, 0 there, 0 not done\n",
    )?;
    expect_line(alloc, "dcmconv +r +v in out", many_tree(alloc)?, &wanted)
}
