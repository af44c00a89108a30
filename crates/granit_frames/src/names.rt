//! What names and handles stand for (YAML 1.2.2, 6.8.2 and 7.1).
ghost use Rattle.std.specs.Prelude.{◌≡◌, [], true, length, nat_lt, IsOk, IsSome, OnOk};
ghost use Rattle.std.specs.Option.{option_map};
ghost use Rattle.std.specs.Str.{chars};
ghost use Rattle.granit_error.specs.OptionsView.{options_of};
ghost use Rattle.granit_machine.specs.Entries.{lookup_text, remembered};
ghost use Rattle.granit_machine.specs.NodeSteps.{known_prefix};
ghost use Rattle.granit_machine.specs.StreamSteps.{declared};
ghost use Rattle.granit_frames.specs.StateViews.{names_view, handles_view};

use crate::state::ParserState;
use granit_base::{NoMemory, Text};
use granit_error::Options;
use std::alloc::Global;
use std::collections::BTreeMap;

/// The number of the last anchor of a name.
#[tactic(auto, using(crate::proofs::EntryLemmas::name_found))]
fn number_of<'input>(names: &BTreeMap<Text<'input>, usize>, name: &Text<'input>) -> Option<usize>
    ensures { result ≡ lookup_text name.now.characters (names_view names.now.entries) }
{
    names.get(name).copied()
}

/// From now on a name is that of an anchor of that number.
///
/// # Errors
///
/// `NoMemory` alone.
#[tactic(auto, using(crate::proofs::EntryLemmas::name_inserted, crate::proofs::EntryLemmas::name_found))]
pub(crate) fn remember_name<'input>(
    names: &mut BTreeMap<Text<'input>, usize>,
    alloc: Global,
    name: &Text<'input>,
    number: usize,
) -> Result<(), NoMemory>
    ensures remembers { OnOk result (names_view names.new.entries ≡ remembered name.now.characters number
        (names_view names.old.entries)) }
    ensures again { name.now.is_borrowed ≡ true
        → IsSome (lookup_text name.now.characters (names_view names.old.entries)) → IsOk result }
{
    names.insert(name.try_clone(alloc)?, number)?;
    Ok(())
}

/// What a handle stands for in a map.
fn prefix_of<'map, 'input>(
    handles: &'map BTreeMap<Text<'input>, Text<'input>>,
    handle: &Text<'input>,
) -> Option<&'map Text<'input>>
    ensures { option_map (λ t. t.now.characters) result ≡ lookup_text handle.now.characters
        (handles_view handles.now.entries) }
{
    handles.get(handle)
}

/// From now on a handle stands for that.
///
/// # Errors
///
/// `NoMemory` alone.
#[tactic(auto, using(crate::proofs::EntryLemmas::prefix_inserted))]
fn remember_handle<'input>(
    handles: &mut BTreeMap<Text<'input>, Text<'input>>,
    handle: Text<'input>,
    prefix: Text<'input>,
) -> Result<(), NoMemory>
    ensures remembers { OnOk result (handles_view handles.new.entries
        ≡ remembered handle.entry.characters prefix.entry.characters (handles_view handles.old.entries)) }
    ensures again { IsSome (lookup_text handle.entry.characters (handles_view handles.old.entries)) → IsOk result }
{
    handles.insert(handle, prefix)?;
    Ok(())
}

/// The same for copies of both.
fn remember_copies<'input>(
    handles: &mut BTreeMap<Text<'input>, Text<'input>>,
    alloc: Global,
    handle: &Text<'input>,
    prefix: &Text<'input>,
) -> Result<(), NoMemory>
    ensures remembers { OnOk result (handles_view handles.new.entries
        ≡ remembered handle.now.characters prefix.now.characters (handles_view handles.old.entries)) }
    ensures again { handle.now.is_borrowed ≡ true → prefix.now.is_borrowed ≡ true
        → IsSome (lookup_text handle.now.characters (handles_view handles.old.entries)) → IsOk result }
{
    let handle = handle.try_clone(alloc)?;
    remember_handle(handles, handle, prefix.try_clone(alloc)?)
}

/// How many characters a text has.
pub fn length_of(text: &str) -> usize
    ensures { result ≡ length (chars text.now) }
{
    text.chars().count()
}

/// Whether a handle is neither `!` nor `!!`.
fn may_stay(handle: &Text<'_>) -> bool
    ensures { result ≡ nat_lt 2 (length handle.now.characters) }
{
    length_of(handle.as_str()) > 2
}

impl<'input> ParserState<'input> {
    /// The number of the last anchor of a name in the document.
    pub fn number_of(&self, name: &Text<'input>) -> Option<usize>
        ensures { result ≡ lookup_text name.now.characters self.now.names }
    {
        number_of(&self.names, name)
    }

    /// What a handle of the document's directives stands for (YAML 1.2.2, 6.8.2).
    pub fn prefix_of<'state>(&'state self, handle: &Text<'input>) -> Option<&'state Text<'input>>
        ensures { option_map (λ t. t.now.characters) result ≡ lookup_text handle.now.characters self.now.handles }
    {
        prefix_of(&self.handles, handle)
    }

    /// What a handle stands for by the document's directives or, where handles but `!` and `!!` stay, by earlier ones.
    pub fn known_prefix<'state>(
        &'state self,
        options: &Options,
        handle: &Text<'input>,
    ) -> Option<&'state Text<'input>>
        ensures { option_map (λ t. t.now.characters) result
            ≡ known_prefix (options_of options.now) handle.now.characters self.now }
    {
        match prefix_of(&self.handles, handle) {
            Some(prefix) => Some(prefix),
            None => {
                if !may_stay(handle) || !options.keep_tags {
                    return None;
                }
                prefix_of(&self.kept, handle)
            }
        }
    }

    /// From now on a handle stands for that, in its document or over documents.
    ///
    /// # Errors
    ///
    /// `NoMemory` alone.
    pub fn remember_handle(
        &mut self,
        alloc: Global,
        handle: Text<'input>,
        prefix: Text<'input>,
        stays: bool,
    ) -> Result<(), NoMemory>
        ensures remembers { OnOk result (self.new
            ≡ declared stays handle.entry.characters prefix.entry.characters self.old) }
        ensures again { IsSome (lookup_text handle.entry.characters self.old.handles)
            → (stays ≡ true → (handle.entry.is_borrowed ≡ true) × (prefix.entry.is_borrowed ≡ true)
            × IsSome (lookup_text handle.entry.characters self.old.kept)) → IsOk result }
    {
        if stays {
            remember_copies(&mut self.kept, alloc, &handle, &prefix)?;
        }
        remember_handle(&mut self.handles, handle, prefix)
    }

    /// No name is an anchor's any more.
    pub fn forget_names(&mut self)
        ensures { self.new ≡ record self.old { names = [] } }
    {
        self.names.clear();
    }

    /// No handle of the document stands for anything any more.
    pub fn forget_handles(&mut self)
        ensures { self.new ≡ record self.old { handles = [] } }
    {
        self.handles.clear();
    }
}
