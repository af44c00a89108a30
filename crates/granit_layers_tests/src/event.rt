//! Events and tags: printed texts and rows of the tags' table. What owns something is made and asked in functions that
//! answer plain values: a test that asserts while it owns is dear to prove.
use crate::agree::agree;
use granit_base::{NoMemory, Placement, ScalarStyle, StructureStyle, Text};
use granit_event::{Event, Tag, YamlVersion};
use std::alloc::Global;
use std::cmp::Ordering;
use std::hash::{DefaultHasher, Hash, Hasher};

/// Whether a tag is written so, with its own handle; none for want of memory.
fn has_original(alloc: Global, tag: &Tag, wanted: &str) -> Option<bool> {
    let original = tag.original(alloc).ok()?;
    Some(original.as_str() == wanted)
}

/// Whether a tag prints so.
fn prints(alloc: Global, tag: &Tag, wanted: &str) -> Option<bool> {
    let printed = tag.to_string(alloc).ok()?;
    Some(printed.as_str() == wanted)
}

/// Whether a copy that was made is equal to what it is of. What is let go in a generic function is cheap to prove.
fn is_same<T: PartialEq + Drop>(copy: Result<T, NoMemory>, of: &T) -> Option<bool> {
    match copy {
        Ok(copy) => Some(copy == *of),
        Err(_) => None,
    }
}

/// The letter of a suffix: `o` is that one as a text of its own, `l` that one lent, `?` another one and `.` none.
fn suffix_letter(suffix: &Option<Text<'_>>, wanted: &str) -> char {
    match suffix {
        None => '.',
        Some(text) if text.as_str() != wanted => '?',
        Some(text) if text.is_borrowed() => 'l',
        Some(_) => 'o',
    }
}

/// The letter of the suffix behind a namespace; `!` is want of memory.
fn behind(alloc: Global, tag: &Tag, namespace: &str, wanted: &str) -> char {
    match &tag.suffix_in_namespace(alloc, namespace) {
        Ok(suffix) => suffix_letter(suffix, wanted),
        Err(_) => '!',
    }
}

fn parts_of(tag: &Tag) -> [&str; 4] {
    let (handle, suffix) = tag.parts();
    let (original_handle, original_suffix) = tag.original_parts();
    [handle, suffix, original_handle, original_suffix]
}

/// A tag of the core schema whose namespace is written in two pieces.
fn in_two_pieces(alloc: Global) -> Result<Tag, NoMemory> {
    Tag::with_original_handle(alloc, "tag:yaml.org,2002:o", "map", "!o!")
}

/// Whether that tag has its parts and no core suffix, and is custom.
fn has_parts_of_two_pieces(tag: &Tag) -> [bool; 3] {
    [
        parts_of(tag) == ["tag:yaml.org,2002:o", "map", "!o!", "map"],
        tag.core_suffix().is_none(),
        tag.is_custom(),
    ]
}

/// Whether it has its own handle and its printed text, and is equal to a clone.
fn has_texts_of_two_pieces(alloc: Global, tag: &Tag) -> [Option<bool>; 3] {
    [
        has_original(alloc, tag, "!o!map"),
        prints(alloc, tag, "tag:yaml.org,2002:omap"),
        is_same(tag.try_clone(alloc), tag),
    ]
}

/// The letters of its suffixes behind three namespaces.
fn suffixes_of_two_pieces(alloc: Global, tag: &Tag) -> [char; 3] {
    [
        behind(alloc, tag, "tag:yaml.org,2002:", "omap"),
        behind(alloc, tag, "tag:yaml.org,2002:om", "ap"),
        behind(alloc, tag, "tag:x", ""),
    ]
}

/// All three.
type ToldOfTag = ([bool; 3], [Option<bool>; 3], [char; 3]);

fn told_of_tag(alloc: Global, tag: &Tag) -> ToldOfTag {
    (
        has_parts_of_two_pieces(tag),
        has_texts_of_two_pieces(alloc, tag),
        suffixes_of_two_pieces(alloc, tag),
    )
}

/// The same of that tag, which is let go here.
fn of_two_pieces(alloc: Global) -> Option<ToldOfTag> {
    let tag = in_two_pieces(alloc).ok()?;
    Some(told_of_tag(alloc, &tag))
}

#[test]
fn a_core_tag_in_two_pieces_of_its_namespace(rt: HostRuntime) {
    let wanted = ([true; 3], [Some(true); 3], ['o', 'l', '.']);
    agree(&rt, of_two_pieces(rt.alloc()), Some(wanted));
}

/// A handle, a suffix, and what they name of the core schema, if anything.
const CORE: &[[&str; 3]] = &[
    ["tag:yaml.org,2002:", "bool", "bool"],
    ["tag:yaml.org,2002:i", "nt", "int"],
    ["", "tag:yaml.org,2002:float", "float"],
    ["tag:yaml.org,2002:map", "", "map"],
    ["tag:yaml.org,", "2002:null", "null"],
    ["tag:yaml.org,2002:", "seq", "seq"],
    ["tag:yaml.org,2002:", "str", "str"],
    ["tag:yaml.org,2002:", "set", ""],
    ["tag:yaml.org,2002:", "", ""],
    ["!", "int", ""],
];

/// Whether a tag has that core suffix; none where it is empty.
fn has_core_suffix(tag: &Tag, wanted: &str) -> bool {
    match tag.core_suffix() {
        Some(suffix) => suffix == wanted && wanted != "",
        None => wanted == "",
    }
}

/// Whether it is also told to be of the core schema, and its `int`, where it is.
fn has_core(tag: &Tag, wanted: &str) -> bool {
    let is_of_schema = tag.is_yaml_core_schema() == (wanted != "");
    let is_int = tag.is_yaml_core_schema_tag("int") == (wanted == "int");
    has_core_suffix(tag, wanted) && is_of_schema && is_int
}

/// The same of the tag of a row.
fn is_core_row(alloc: Global, row: &[&str; 3]) -> Option<bool> {
    let tag = Tag::new(alloc, row[0], row[1]).ok()?;
    Some(has_core(&tag, row[2]))
}

/// How many rows stand before the first one whose tag is told otherwise.
fn count_core(alloc: Global) -> usize {
    let mut count: usize = 0;
    for row in CORE {
        if is_core_row(alloc, row) != Some(true) {
            return count;
        }
        count = count.saturating_add(1);
    }
    count
}

#[test]
fn core_suffixes(rt: HostRuntime) {
    agree(&rt, count_core(rt.alloc()), 10);
}

/// A handle, a suffix and the handle as written, and how the tag is written and printed.
const WRITTEN: &[[&str; 5]] = &[
    ["", "x:y", "", "!<x:y>", "x:y"],
    ["", "!", "", "!", "!"],
    ["!", "local", "!", "!local", "!local"],
    [
        "tag:yaml.org,2002:",
        "str",
        "!!",
        "!!str",
        "tag:yaml.org,2002:str",
    ],
    ["", "", "", "!<>", ""],
];

/// Whether a tag has its parts, is written and is printed as a row says.
fn written(alloc: Global, tag: &Tag, row: &[&str; 5]) -> [Option<bool>; 3] {
    let parts = [tag.handle(), tag.suffix(), tag.original_handle()];
    [
        Some(parts == [row[0], row[1], row[2]]),
        has_original(alloc, tag, row[3]),
        prints(alloc, tag, row[4]),
    ]
}

/// The same of the tag of that row.
fn row_written(alloc: Global, row: &[&str; 5]) -> Option<[Option<bool>; 3]> {
    let tag = Tag::with_original_handle(alloc, row[0], row[1], row[2]).ok()?;
    Some(written(alloc, &tag, row))
}

/// How many rows stand before the first one whose tag is otherwise.
fn count_written(alloc: Global) -> usize {
    let mut count: usize = 0;
    for row in WRITTEN {
        if row_written(alloc, row) != Some([Some(true); 3]) {
            return count;
        }
        count = count.saturating_add(1);
    }
    count
}

#[test]
fn originals_and_printed_tags(rt: HostRuntime) {
    agree(&rt, count_written(rt.alloc()), 5);
}

fn hash_of(tag: &Tag) -> u64 {
    let mut state = DefaultHasher::new();
    tag.hash(&mut state);
    state.finish()
}

/// A tag by its handle, its suffix and its handle as written.
fn tag_of(alloc: Global, parts: [&str; 3]) -> Result<Tag, NoMemory> {
    Tag::with_original_handle(alloc, parts[0], parts[1], parts[2])
}

/// Whether two tags are equal, and how they are ordered.
fn compared(one: &Tag, other: &Tag) -> (bool, Ordering) {
    (one == other, one.cmp(other))
}

/// The same of a tag and one that is made.
fn order_to(alloc: Global, one: &Tag, other: [&str; 3]) -> Option<(bool, Ordering)> {
    let other = tag_of(alloc, other).ok()?;
    Some(compared(one, &other))
}

/// The same of two tags that are made.
fn order(alloc: Global, one: [&str; 3], other: [&str; 3]) -> Option<(bool, Ordering)> {
    let one = tag_of(alloc, one).ok()?;
    order_to(alloc, &one, other)
}

/// Whether two tags are equal and have one hash, and in which order they are partly.
fn compared_partly(one: &Tag, other: &Tag) -> (bool, bool, Option<Ordering>) {
    let is_one_hash = hash_of(one) == hash_of(other);
    (one == other, is_one_hash, one.partial_cmp(other))
}

/// The same of a tag and its clone.
fn compared_to_clone(alloc: Global, tag: &Tag) -> Option<(bool, bool, Option<Ordering>)> {
    let copy = tag.try_clone(alloc).ok()?;
    Some(compared_partly(tag, &copy))
}

/// The same of a tag that is made.
fn compares_its_clone(alloc: Global) -> Option<(bool, bool, Option<Ordering>)> {
    let tag = tag_of(alloc, ["a", "b", "!"]).ok()?;
    compared_to_clone(alloc, &tag)
}

#[test]
fn tags_go_by_their_parts(rt: HostRuntime) {
    let alloc = rt.alloc();
    let one = ["a", "b", "!"];
    let orders = [
        order(alloc, one, ["a", "c", ""]),
        order(alloc, ["ab", "", "!"], ["a", "c", ""]),
        order(alloc, ["ab", "", "!"], one),
        order(alloc, ["a", "b", "a"], one),
    ];
    let greater = Some((false, Ordering::Greater));
    agree(
        &rt,
        orders,
        [Some((false, Ordering::Less)), greater, greater, greater],
    );
    let equal = (true, true, Some(Ordering::Equal));
    agree(&rt, compares_its_clone(alloc), Some(equal));
}

/// What an event tells of a tag that it has.
fn told(event: &Event<'_>, tag: &Tag) -> [bool; 4] {
    [
        event.anchor_id() == Some(7),
        event.scalar() == Some(("é", ScalarStyle::Literal)),
        event.tag() == Some(tag),
        event.is_node(),
    ]
}

/// The same, and whether a clone of the event is equal to it.
fn told_and_cloned(alloc: Global, event: &Event<'_>, tag: &Tag) -> ([bool; 4], Option<bool>) {
    (told(event, tag), is_same(event.try_clone(alloc), event))
}

fn scalar(tag: Tag) -> Event<'static> {
    Event::Scalar(Text::borrowed("é"), ScalarStyle::Literal, 7, Some(tag))
}

/// Both of a scalar with a copy of a tag.
fn of_scalar_with(alloc: Global, tag: &Tag) -> Option<([bool; 4], Option<bool>)> {
    let event = scalar(tag.try_clone(alloc).ok()?);
    let told = told_and_cloned(alloc, &event, tag);
    drop(event);
    Some(told)
}

/// The same of a tag that is made.
fn of_a_scalar(alloc: Global) -> Option<([bool; 4], Option<bool>)> {
    let tag = Tag::new(alloc, "!", "t").ok()?;
    of_scalar_with(alloc, &tag)
}

#[test]
fn events_with_tags(rt: HostRuntime) {
    agree(&rt, of_a_scalar(rt.alloc()), Some(([true; 4], Some(true))));
}

fn anchor() -> Event<'static> {
    Event::Anchor(4, Text::borrowed("a"))
}

fn comment() -> Event<'static> {
    Event::Comment(Text::borrowed(" c"), Placement::Above)
}

/// Whether an event is equal to one that is let go here.
fn is_equal<T: PartialEq + Drop>(event: &T, other: T) -> bool {
    *event == other
}

/// What an event tells: its anchor, its alias, and whether it is an alias, is a node, has no tag, and is that anchor.
fn told_of_event(event: &Event<'_>) -> ([Option<usize>; 2], [bool; 4]) {
    let numbers = [event.anchor_id(), event.alias_id()];
    let kinds = [event.is_alias(), event.is_node()];
    let is_untagged = event.tag().is_none();
    (
        numbers,
        [kinds[0], kinds[1], is_untagged, is_equal(event, anchor())],
    )
}

/// The same of an event that is let go here.
fn asked(event: Event<'_>) -> ([Option<usize>; 2], [bool; 4]) {
    let told = told_of_event(&event);
    drop(event);
    told
}

#[test]
fn events_without_tags(rt: HostRuntime) {
    let told = [
        asked(Event::Alias(3)),
        asked(anchor()),
        asked(Event::MappingStart(StructureStyle::Flow, 0, None)),
        asked(comment()),
    ];
    let wanted = [
        ([None, Some(3)], [true, true, true, false]),
        ([Some(4), None], [false, false, true, true]),
        ([None, None], [false, true, true, false]),
        ([None, None], [false, false, true, false]),
    ];
    agree(&rt, told, wanted);
}

/// Whether an event is the start of a document without a version.
fn has_no_version(event: Event<'_>) -> bool {
    let has_none = is_equal(&event, Event::DocumentStart(true, None));
    drop(event);
    has_none
}

#[test]
fn versions(rt: HostRuntime) {
    let version = YamlVersion::new(1, 2);
    agree(&rt, [version.major, version.minor], [1, 2]);
    let event = Event::DocumentStart(true, Some(version));
    agree(&rt, has_no_version(event), false);
}
