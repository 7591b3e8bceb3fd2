// Obeying words over files in memory.
ghost use Rattle.std.specs.Prelude.{◌≡◌, map, true, false};
ghost use Rattle.dcm_cli.specs.InMemory.{ObeysInMemory};
ghost use Rattle.dcm_dumps.specs.Words.{asks_dumps};
ghost use Rattle.dcm_dumps.specs.DumpsInMemory as listed_dumps;
ghost use Rattle.dcm_dumps.specs.DumpsInMemory.{DumpsInMemory};
ghost use Rattle.dcm_tables.specs.TableInMemory.{ListsAreReadWhole, TablesInMemory};
ghost use Rattle.dcm_tables.specs.TableProgram.{asks_table};
ghost use Rattle.dcm_tree_words.specs.Trees.{asks_tree};

use crate::program::obey;
use dcm_base::{Measured, MemOut, Watched};
use dcm_cli::in_memory::Obeyed;
use dcm_files::MemSystem;
use std::alloc::Global;

/// Obeys words over files in memory. Where they ask for a table and there is room for it, the output is the header and
/// the row of each file, in the order of the names, and each row is what the bytes of its file give. A list has the
/// names in the bytes of its file, and at most 2^62 of them are read. Where there is room for the lines, they are
/// written too. Where they ask for dumps of several files, the output is the heading and the dump of each file in the
/// same way. Other words are obeyed as `dcm_cli` does, where they do not ask for a run over a tree.
pub fn obey_in_memory<'a>(
    alloc: Global,
    words: &[&[u8]],
    system: MemSystem<'a>,
    errors: MemOut,
) -> Obeyed
    ensures tables { asks_table (map (λ w. w.now) words.now) ≡ true
        → ListsAreReadWhole (map (λ w. w.now) words.now) system.entry
        → TablesInMemory (map (λ w. w.now) words.now) system.entry errors result.written result.errors result.status }
    ensures dumps { asks_dumps (map (λ w. w.now) words.now) ≡ true
        → listed_dumps.ListsAreReadWhole (map (λ w. w.now) words.now) system.entry
        → DumpsInMemory (map (λ w. w.now) words.now) system.entry errors result.written result.errors result.status }
    ensures others { asks_table (map (λ w. w.now) words.now) ≡ false
        → asks_dumps (map (λ w. w.now) words.now) ≡ false → asks_tree (map (λ w. w.now) words.now) ≡ false
        → ObeysInMemory (map (λ w. w.now) words.now) system.entry errors result.written result.errors result.status }
{
    let mut system = system;
    let mut errors = Watched::new(Measured::new(errors));
    let status = obey(&mut system, alloc, words, &mut errors);
    Obeyed {
        written: system.into_written(),
        errors: errors.into_device().into_inner(),
        status,
    }
}
