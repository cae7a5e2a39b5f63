//! Choosing modules by an index of the names that library modules define.

ghost use Rattle.std.specs.Prelude.{◌≡◌, ◌++◌, ◌∷◌, [], ◌||◌, ◌==◌, ℕ, List, IfOk, OnOk, true, is_some, option_to_list};
ghost use Rattle.std.specs.Ordering.{nat_cmp};
ghost use Rattle.std.specs.List.{list_any};
ghost use Rattle.std.specs.Option.{option_or};
ghost use Rattle.std.specs.BTreeSet.{contains};
ghost use Rattle.name_table.specs.Entries.{value_named};
ghost use Rattle.link_model.specs.Choosing.{Chosen, defines, is_defined, next_pick, object_picks};
ghost use Rattle.sym_table.specs.Choices.{AreLeaders, IsChoice};
ghost use Rattle.sym_table.specs.Leading.{leader, has_public, has_import, given, awaited, awaits};

use link_model::Pick;
use lx_types::{NoMemory, Seq, count};
use name_table::LentTable;
use obj_types::{Ext, Imp, LinkInput, ObjModule, Pub};
use std::alloc::Global;
use std::collections::BTreeSet;

fn add_publics<'a>(
    table: &mut LentTable<'a, u32>,
    value: u32,
    publics: &'a [Pub],
) -> Result<(), NoMemory>
    ensures { OnOk result ((name : List ℕ) → value_named name table.new
        ≡ option_or (value_named name table.old) (given (has_public publics.entry.now name) value)) }
{
    for public in publics {
        if !public.local {
            table.push(public.name.bytes(), value)?;
        }
    }
    Ok(())
}

fn add_imports<'a>(
    table: &mut LentTable<'a, u32>,
    value: u32,
    imports: &'a [Imp],
) -> Result<(), NoMemory>
    ensures { OnOk result ((name : List ℕ) → value_named name table.new
        ≡ option_or (value_named name table.old) (given (has_import imports.entry.now name) value)) }
{
    for import in imports {
        table.push(import.name.bytes(), value)?;
    }
    Ok(())
}

// Gives the names that a module defines for other modules this value, where they have none.
fn add_module<'a>(
    table: &mut LentTable<'a, u32>,
    value: u32,
    object: &'a ObjModule,
) -> Result<(), NoMemory>
    ensures { OnOk result ((name : List ℕ) → value_named name table.new
        ≡ option_or (value_named name table.old) (given (defines object.entry.now name) value)) }
{
    add_publics(table, value, object.pubs.as_slice())?;
    add_imports(table, value, object.imports.as_slice())
}

// For each name the first library module that defines it.
fn leaders_of<'a>(alloc: Global, libraries: &'a [ObjModule]) -> Result<LentTable<'a, u32>, NoMemory>
    ensures { IfOk result (λ table. (name : List ℕ) → value_named name table ≡ leader libraries.entry.now name) }
{
    let mut table = LentTable::new(alloc);
    for (index, object) in libraries.iter().enumerate() {
        add_module(&mut table, count(index)?, object)?;
    }
    Ok(table)
}

// The names that the object files and the definition file define.
fn defined_first<'a>(alloc: Global, input: &'a LinkInput) -> Result<LentTable<'a, u32>, NoMemory>
    ensures { IfOk result (λ table. (name : List ℕ)
        → is_some (value_named name table) ≡ is_defined input.entry.now.objects input.entry.now.def name) }
{
    let mut table = leaders_of(alloc, input.objects.as_slice())?;
    add_imports(&mut table, 0, input.def.imports.as_slice())?;
    Ok(table)
}

fn awaited(
    leaders: &LentTable<'_, u32>,
    defined: &LentTable<'_, u32>,
    external: &Ext,
) -> Option<u32>
    ensures { result ≡ awaited leaders.now defined.now external.now }
{
    let name = external.name.bytes();
    if external.local || defined.get(name).is_some() {
        return None;
    }
    leaders.get(name).copied()
}

// The library modules that these externals wait for wait to be chosen.
fn await_wanted(
    waiting: &mut BTreeSet<u32>,
    leaders: &LentTable<'_, u32>,
    defined: &LentTable<'_, u32>,
    externals: &[Ext],
) -> Result<(), NoMemory>
    ensures { OnOk result ((k : ℕ) → contains nat_cmp waiting.new k
        ≡ (contains nat_cmp waiting.old k || list_any (awaits leaders.now defined.now k) externals.now)) }
{
    for external in externals {
        if let Some(index) = awaited(leaders, defined, external) {
            if waiting.insert(index).is_err() {
                return Err(NoMemory);
            }
        }
    }
    Ok(())
}

// The library modules that object files wait for.
fn waiting_first(
    alloc: Global,
    leaders: &LentTable<'_, u32>,
    defined: &LentTable<'_, u32>,
    objects: &[ObjModule],
) -> Result<BTreeSet<u32>, NoMemory>
    ensures { IfOk result (λ waiting. (k : ℕ) → contains nat_cmp waiting k
        ≡ list_any (λ m. list_any (awaits leaders.now defined.now k) m.exts) objects.now) }
{
    let mut waiting = BTreeSet::new(alloc);
    for object in objects {
        await_wanted(&mut waiting, leaders, defined, object.exts.as_slice())?;
    }
    Ok(waiting)
}

// The object files, in order.
fn object_files(alloc: Global, input: &LinkInput) -> Result<Seq<Pick>, NoMemory>
    ensures { IfOk result (λ picks. picks ≡ object_picks input.now) }
{
    let mut picks = Seq::new(alloc);
    for (index, _object) in input.objects.as_slice().iter().enumerate() {
        picks.push(Pick {
            lib: false,
            index: count(index)?,
        })?;
    }
    Ok(picks)
}

/// The modules that are chosen so far, and what they and the definition file define.
#[derive(Drop)]
pub struct Choice<'a> {
    pub picks: Seq<Pick>,
    /// The names that are defined.
    pub defined: LentTable<'a, u32>,
    /// The library modules that are the first to define a name which is wanted and not defined.
    pub waiting: BTreeSet<u32>,
}

// The object files alone.
fn first_choice<'a>(
    alloc: Global,
    input: &'a LinkInput,
    leaders: &LentTable<'_, u32>,
) -> Result<Choice<'a>, NoMemory>
    requires { AreLeaders input.now leaders.now }
    ensures picks { IfOk result (λ choice. choice.picks ≡ object_picks input.entry.now) }
    ensures known { IfOk result (λ choice. IsChoice input.entry.now choice) }
{
    let defined = defined_first(alloc, input)?;
    let waiting = waiting_first(alloc, leaders, &defined, input.objects.as_slice())?;
    let picks = object_files(alloc, input)?;
    Ok(Choice {
        picks,
        defined,
        waiting,
    })
}

// Adds a library module to the chosen ones.
fn add_choice<'a>(
    leaders: &LentTable<'_, u32>,
    choice: &mut Choice<'a>,
    index: u32,
    object: &'a ObjModule,
) -> Result<(), NoMemory>
    ensures picks { OnOk result (choice.new.picks ≡ choice.old.picks ++ record { lib = true; index = index } ∷ []) }
    ensures defined { OnOk result ((name : List ℕ) → value_named name choice.new.defined
        ≡ option_or (value_named name choice.old.defined) (given (defines object.entry.now name) index)) }
    ensures waiting { OnOk result ((k : ℕ) → contains nat_cmp choice.new.waiting k
        ≡ (contains nat_cmp choice.old.waiting k || list_any (awaits leaders.entry.now choice.new.defined k) object.entry.now.exts)) }
{
    choice.picks.push(Pick { lib: true, index })?;
    add_module(&mut choice.defined, index, object)?;
    await_wanted(
        &mut choice.waiting,
        leaders,
        &choice.defined,
        object.exts.as_slice(),
    )
}

// Chooses one more module, and answers whether there was one to choose.
fn choose_next<'a>(
    input: &'a LinkInput,
    leaders: &LentTable<'_, u32>,
    choice: &mut Choice<'a>,
) -> Result<bool, NoMemory>
    requires leaders { AreLeaders input.now leaders.now }
    requires known { IsChoice input.now choice.old }
    ensures more { IfOk result (λ more. more ≡ is_some (next_pick input.entry.now choice.old.picks)) }
    ensures picks { OnOk result (choice.new.picks ≡ choice.old.picks ++ option_to_list (next_pick input.entry.now choice.old.picks)) }
    ensures known { OnOk result (IsChoice input.entry.now choice.new) }
{
    match choice.waiting.pop_first() {
        None => Ok(false),
        Some(index) => {
            let object = &input.libs.as_slice()[index as usize];
            add_choice(leaders, choice, index, object)?;
            Ok(true)
        }
    }
}

// Chooses all library modules that are to be chosen after the object files.
fn choose_all<'a>(
    input: &'a LinkInput,
    leaders: &LentTable<'_, u32>,
    choice: &mut Choice<'a>,
) -> Result<(), NoMemory>
    requires leaders { AreLeaders input.now leaders.now }
    requires picks { choice.old.picks ≡ object_picks input.now }
    requires known { IsChoice input.now choice.old }
    ensures { OnOk result (Chosen input.entry.now choice.new.picks) }
{
    'choosing: while choose_next(input, leaders, choice)? {}
    Ok(())
}

/// The modules that a link chooses, in the order in which they are chosen. Each name is looked up once for each module
/// that wants or defines it, and none where there is no library module.
pub fn choose_by_names(alloc: Global, input: &LinkInput) -> Result<Seq<Pick>, NoMemory>
    ensures { IfOk result (λ picks. Chosen input.now picks) }
{
    if input.libs.as_slice().is_empty() {
        let picks = object_files(alloc, input)?;
        return Ok(picks);
    }
    let leaders = leaders_of(alloc, input.libs.as_slice())?;
    let mut choice = first_choice(alloc, input, &leaders)?;
    choose_all(input, &leaders, &mut choice)?;
    Ok(choice.picks)
}
