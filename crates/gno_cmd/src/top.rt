// The top call.
ghost use Rattle.std.specs.Prelude.{◌≡◌, ◌≢◌, ◌<◌, ◌≤◌, ◌+◌, ◌^◌, ◌↔◌, ◌⊎◌, ℕ, List, Option, Some, IfSome, IsSome, codes, map, length};
ghost use Rattle.std.specs.String.{string_bytes};
ghost use Rattle.gno_base.specs.declared.names.LimitOf.TheVariants.{Script};
ghost use Rattle.gno_port.specs.Causes.{CutsShort, Rose, RoseBy};
ghost use Rattle.gno_port.specs.Streams.{Gained, LostSome};
ghost use Rattle.gno_port.specs.Tables.{Table};
ghost use Rattle.gno_items.specs.declared.memory.Package.{Package};
ghost use Rattle.gno_table.specs.FirstFormat.{IsNotFirst};
ghost use Rattle.gno_cmd.specs.Given.{GivesFault, GivesScript, GivesTooMuch};
ghost use Rattle.gno_cmd.specs.Headline.{Continues, DoesNothing, FindsDamage, GainedFront, HasMemory, HasRead, IsEarly, IsLate, IsOver, IsStopped, Leaves, ReadsFault, Replays, ReplaysAt, Stops, StopsAt, end_status};
ghost use Rattle.gno_cmd.specs.Performing.{AreNamed};
ghost use Rattle.gno_cmd.specs.Statuses.{status_line};
ghost use Rattle.gno_cmd.specs.Usage.{AreReplayWords, usage_fault};

use crate::Status;
use crate::line::write_line;
use crate::performing::ItemFault;
use crate::session::run_items;
use crate::usage::table_name;
use gno_base::{Bytes, LimitOf};
use gno_port::{KeepFault, Keeper, ReadFault, Sink, Source, read_all};
use gno_script::{Item, ScriptError, read_script};
use gno_table::{LoadFault, load};
use std::alloc::Global;

/// A script has at most so many bytes.
const MOST_BYTES: usize = 67_108_864;

const MOST_ITEMS: usize = 1 << 62;

/// Runs the command that the words name, and hands the keeper back. `replay -store NAME` reads a script from `input`,
/// runs it on the table of that name and writes the text of its items to `out`. A status from 2 on writes its one line
/// to `err`, as far as that takes it.
///
/// Where the session stops at a fault, the items in front of it stand, performed whole. A write fault comes after the
/// commit: the item whose text is cut short stands too. Want of memory may come before the table is opened.
pub fn gno<I: Source, O: Sink, E: Sink, K: Keeper>(
    alloc: Global,
    words: &[String],
    input: &mut I,
    out: &mut O,
    err: &mut E,
    keeper: K,
) -> (Status, K)
    ensures over { IsOver result.0 → Replays (map string_bytes words.now) (I.left input.old) (I.left input.new) (O.holds out.old) (O.holds out.new) (K.tables keeper) (K.tables result.1) result.0 }
    ensures stopped { IsStopped result.0 → Stops (map string_bytes words.now) (I.left input.old) (I.left input.new) (O.holds out.old) (O.holds out.new) (K.tables keeper) (K.tables result.1) result.0 }
    ensures memory { result.0 ≡ Status.NoMemory → ((result.1 ≡ keeper) × (O.holds out.new ≡ O.holds out.old)) ⊎ Stops (map string_bytes words.now) (I.left input.old) (I.left input.new) (O.holds out.old) (O.holds out.new) (K.tables keeper) (K.tables result.1) result.0 }
    ensures others { (name : List ℕ) (other : List ℕ) → AreReplayWords (map string_bytes words.now) name → other ≢ name → K.tables result.1 other ≡ K.tables keeper other }
    ensures usage { (word : ℕ) → (result.0 ≡ Status.Usage word) ↔ (usage_fault (map string_bytes words.now) ≡ Some word) }
    ensures read { result.0 ≡ Status.ReadFault → Rose (I.faults input.old) (I.faults input.new) }
    ensures write { result.0 ≡ Status.WriteFault → CutsShort (O.faults out.old) (O.faults out.new) (O.zero_writes out.old) (O.zero_writes out.new) }
    ensures store { result.0 ≡ Status.StoreFault → Rose (K.faults keeper) (K.faults result.1) }
    ensures damaged { (key : List ℕ) → result.0 ≡ Status.Damaged key → FindsDamage (map string_bytes words.now) (K.tables keeper) key }
    ensures script { (line : ℕ) → result.0 ≡ Status.ScriptFault line → ReadsFault (I.left input.old) (I.left input.new) line }
    ensures limit { (which : LimitOf) → result.0 ≡ Status.Limit which → (which ≡ Script) × IfSome (I.left input.old) (λ text. 67108864 < length text) }
    ensures front { LostSome (I.left input.old) (I.left input.new) }
    ensures ended { HasRead result.0 → Rose (I.ends input.old) (I.ends input.new) }
    ensures passed { (which : LimitOf) → result.0 ≡ Status.Limit which → RoseBy 67108865 (I.given input.old) (I.given input.new) }
    ensures bound { I.given input.new ≤ I.given input.old + 67112960 }
    ensures untouched { IsEarly result.0 → result.1 ≡ keeper }
    ensures unwritten { IsEarly result.0 → O.holds out.new ≡ O.holds out.old }
    ensures complete { (name : List ℕ) (memory : List Package) → GivesScript (map string_bytes words.now) (I.left input.old) name → HasMemory (K.tables keeper name) memory → IsOver result.0 ⊎ (result.0 ≡ Status.NoMemory) ⊎ Rose (I.faults input.old) (I.faults input.new) ⊎ CutsShort (O.faults out.old) (O.faults out.new) (O.zero_writes out.old) (O.zero_writes out.new) ⊎ Rose (K.faults keeper) (K.faults result.1) }
    ensures not_first { (name : List ℕ) → GivesScript (map string_bytes words.now) (I.left input.old) name → IsSome (K.tables keeper name) → IsNotFirst (K.tables keeper name) → (result.0 ≡ Status.Damaged (codes "F")) ⊎ (result.0 ≡ Status.NoMemory) ⊎ Rose (I.faults input.old) (I.faults input.new) ⊎ Rose (K.faults keeper) (K.faults result.1) }
    ensures faulty { (line : ℕ) → GivesFault (map string_bytes words.now) (I.left input.old) line → (result.0 ≡ Status.ScriptFault line) ⊎ (result.0 ≡ Status.NoMemory) ⊎ Rose (I.faults input.old) (I.faults input.new) }
    ensures too_long { GivesTooMuch (map string_bytes words.now) (I.left input.old) → (result.0 ≡ Status.Limit Script) ⊎ (result.0 ≡ Status.NoMemory) ⊎ Rose (I.faults input.old) (I.faults input.new) }
    ensures line { GainedFront (E.holds err.old) (E.holds err.new) (status_line result.0) }
    ensures whole_line { Gained (E.holds err.old) (E.holds err.new) (status_line result.0) ⊎ CutsShort (E.faults err.old) (E.faults err.new) (E.zero_writes err.old) (E.zero_writes err.new) }
{
    let mut kept = keeper;
    let status = match table_name(words) {
        Ok(name) => replay(alloc, name.as_bytes(), input, out, &mut kept),
        Err(word) => Status::Usage(word),
    };
    write_line(err, &status);
    (status, kept)
}

// Reads a script, and runs it on the table of a name.
fn replay<I: Source, O: Sink, K: Keeper>(
    alloc: Global,
    name: &[u8],
    input: &mut I,
    out: &mut O,
    keeper: &mut K,
) -> Status
    ensures over { IsOver result → ReplaysAt name.now (I.left input.old) (I.left input.new) (O.holds out.old) (O.holds out.new) (K.tables keeper.old) (K.tables keeper.new) result }
    ensures stopped { IsStopped result → StopsAt name.now (I.left input.old) (I.left input.new) (O.holds out.old) (O.holds out.new) (K.tables keeper.old) (K.tables keeper.new) result }
    ensures memory { result ≡ Status.NoMemory → ((keeper.new ≡ keeper.old) × (O.holds out.new ≡ O.holds out.old)) ⊎ StopsAt name.now (I.left input.old) (I.left input.new) (O.holds out.old) (O.holds out.new) (K.tables keeper.old) (K.tables keeper.new) result }
    ensures others { (other : List ℕ) → other ≢ name.now → K.tables keeper.new other ≡ K.tables keeper.old other }
    ensures usage { (word : ℕ) → result ≢ Status.Usage word }
    ensures read { result ≡ Status.ReadFault → Rose (I.faults input.old) (I.faults input.new) }
    ensures write { result ≡ Status.WriteFault → CutsShort (O.faults out.old) (O.faults out.new) (O.zero_writes out.old) (O.zero_writes out.new) }
    ensures store { result ≡ Status.StoreFault → Rose (K.faults keeper.old) (K.faults keeper.new) }
    ensures damaged { (key : List ℕ) → result ≡ Status.Damaged key → (key ≡ codes "F") × IsNotFirst (K.tables keeper.old name.now) }
    ensures script { (line : ℕ) → result ≡ Status.ScriptFault line → ReadsFault (I.left input.old) (I.left input.new) line }
    ensures limit { (which : LimitOf) → result ≡ Status.Limit which → (which ≡ Script) × IfSome (I.left input.old) (λ text. 67108864 < length text) }
    ensures front { LostSome (I.left input.old) (I.left input.new) }
    ensures ended { HasRead result → Rose (I.ends input.old) (I.ends input.new) }
    ensures passed { (which : LimitOf) → result ≡ Status.Limit which → RoseBy 67108865 (I.given input.old) (I.given input.new) }
    ensures bound { I.given input.new ≤ I.given input.old + 67112960 }
    ensures untouched { IsEarly result → keeper.new ≡ keeper.old }
    ensures unwritten { IsEarly result → O.holds out.new ≡ O.holds out.old }
{
    let text = match read_all(alloc, input, MOST_BYTES) {
        Ok(text) => text,
        Err(ReadFault::Failed) => return Status::ReadFault,
        Err(ReadFault::TooLong) => return Status::Limit(LimitOf::Script),
        Err(ReadFault::NoMemory) => return Status::NoMemory,
    };
    match read_script(alloc, text.as_slice()) {
        Ok(items) => run_script(alloc, name, out, keeper, items.as_slice()),
        Err(ScriptError::Line(line)) => Status::ScriptFault(line),
        Err(ScriptError::NoMemory) => Status::NoMemory,
    }
}

// Opens the table, loads the packages that it stores and runs the items.
fn run_script<O: Sink, K: Keeper>(
    alloc: Global,
    name: &[u8],
    out: &mut O,
    keeper: &mut K,
    items: &[Item],
) -> Status
    requires { AreNamed items.now }
    ensures over { IsOver result → (table : Table) → K.tables keeper.old name.now ≡ Some table → Continues table items.now (O.holds out.old) (O.holds out.new) (K.tables keeper.new name.now) result }
    ensures stopped { (memory : List Package) → HasMemory (K.tables keeper.old name.now) memory → Leaves result memory items.now (O.holds out.old) (O.holds out.new) (K.tables keeper.old name.now) (K.tables keeper.new name.now) }
    ensures not_first { IsSome (K.tables keeper.old name.now) → IsNotFirst (K.tables keeper.old name.now) → DoesNothing (O.holds out.old) (O.holds out.new) (K.tables keeper.old name.now) (K.tables keeper.new name.now) result }
    ensures damaged { (key : List ℕ) → result ≡ Status.Damaged key → (key ≡ codes "F") × IsNotFirst (K.tables keeper.old name.now) }
    ensures others { (other : List ℕ) → other ≢ name.now → K.tables keeper.new other ≡ K.tables keeper.old other }
    ensures late { IsLate result }
    ensures write { result ≡ Status.WriteFault → CutsShort (O.faults out.old) (O.faults out.new) (O.zero_writes out.old) (O.zero_writes out.new) }
    ensures store { result ≡ Status.StoreFault → Rose (K.faults keeper.old) (K.faults keeper.new) }
{
    match keeper.open(alloc, name) {
        Ok(()) => {}
        Err(KeepFault::Failed) => return Status::StoreFault,
        Err(KeepFault::NoMemory) => return Status::NoMemory,
    }
    let mut packages = match load(alloc, keeper) {
        Ok(packages) => packages,
        Err(LoadFault::Failed) => return Status::StoreFault,
        Err(LoadFault::Damaged) => return damaged(alloc),
        Err(LoadFault::NoMemory) => return Status::NoMemory,
    };
    if items.len() >= MOST_ITEMS {
        return Status::NoMemory;
    }
    match run_items(alloc, keeper, out, &mut packages, name, items) {
        Ok(good) => status_at_end(good),
        Err(ItemFault::Write) => Status::WriteFault,
        Err(ItemFault::Store) => Status::StoreFault,
        Err(ItemFault::Damaged) => damaged(alloc),
        Err(ItemFault::NoMemory) => Status::NoMemory,
    }
}

fn status_at_end(good: bool) -> Status
    ensures { result ≡ end_status good }
{
    if good {
        Status::Done
    } else {
        Status::SomeFailed
    }
}

// The table is not of the first format: the key of the format's row shows it.
fn damaged(alloc: Global) -> Status
    ensures key { (result ≡ Status.Damaged (codes "F")) ⊎ (result ≡ Status.NoMemory) }
{
    match Bytes::from_slice(alloc, b"F") {
        Ok(key) => Status::Damaged(key),
        Err(_) => Status::NoMemory,
    }
}
