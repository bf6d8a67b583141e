//! The built-in objects as the table has them, with their names and sites.

ghost use Rattle.std.specs.Prelude.{◌≡◌, ◌<◌, ◌≤◌, ◌^◌, ◌++◌, length, map, IfOk, OnOk, IsTrue};
ghost use Rattle.std.specs.List.{enumerate_from, flat_map, list_all};
ghost use Rattle.std.specs.Option.{option_map};
ghost use Rattle.ja_prim.specs.Texts.{is_short, max_units};
ghost use Rattle.ja_graph.specs.WellFormed as graph;
ghost use Rattle.ja_graph.specs.declared.builtins.TheConstants.{BUILTIN_CLASSES};
ghost use Rattle.ja_lower_names.specs.Names.{number};
ghost use Rattle.ja_prelude.specs.Table as spec;
ghost use Rattle.ja_prelude.specs.code.Table as code;

use crate::table::{
    BuiltinObject, Constant, Content, Entry, FUNCTION_OBJECTS, OBJECTS, Role, TableRow,
};
use ja_base::{FnId, Memory, NameId, Place, Seq, Site};
use ja_graph::{
    Attrs, BUILTIN_CLASSES, BUILTIN_NAMES, Class, ErrorKind, GLOBAL, ObjectSpec, PropertySpec,
    SiteInfo, SpecContent,
};
use ja_prim::{Int, Num, Primitive, Text16};
use std::alloc::Global;

/// The place of a site that no text has.
const NO_PLACE: Place = Place { line: 0, column: 0 };

/// The texts of names.
fn texts_of(alloc: Global, names: &[&[u8]]) -> Result<Vec<Text16>, Memory>
    requires { IsTrue (list_all (λ name. is_short name.now) names.now) }
    ensures { IfOk result (λ texts. texts.items ≡ map (λ name. name.now) names.now) }
{
    let mut texts = Vec::new(alloc);
    for name in names {
        texts.push(Text16::from_ascii(alloc, name)?)?;
    }
    Ok(texts)
}

/// The names that each program begins with. `Memory` comes where memory is refused.
pub fn builtin_names(alloc: Global) -> Result<Vec<Text16>, Memory>
    ensures { IfOk result (λ names. names.items ≡ graph.builtin_names) }
{
    texts_of(alloc, &BUILTIN_NAMES)
}

/// The place of a name among names, or the one behind the last where it isn't one of them.
fn place_among(names: &[&[u8]], name: &[u8]) -> NameId
    requires { length names.now < 2 ^ 31 }
    ensures { result ≡ number (map (λ n. n.now) names.now) name.now }
{
    let mut left = names;
    let mut number = 0;
    while let [first, rest @ ..] = left {
        if name == *first {
            return NameId(number);
        }
        left = rest;
        number += 1;
    }
    NameId(number)
}

/// The number of a built-in name: its place among them, or the one behind the last where it isn't
/// one of them.
#[tactic(auto, unfolding(crate::specs::Table::builtin_number))]
fn builtin_number(name: &[u8]) -> NameId
    ensures { result ≡ spec.builtin_number name.now }
{
    place_among(&BUILTIN_NAMES, name)
}

/// The name of a kind of errors.
fn error_name(kind: ErrorKind) -> &'static str
    ensures value { result.now ≡ spec.error_name kind }
    ensures within { length result.now ≤ max_units }
{
    match kind {
        ErrorKind::Error => "Error",
        ErrorKind::EvalError => "EvalError",
        ErrorKind::RangeError => "RangeError",
        ErrorKind::ReferenceError => "ReferenceError",
        ErrorKind::SyntaxError => "SyntaxError",
        ErrorKind::TypeError => "TypeError",
        ErrorKind::URIError => "URIError",
    }
}

/// A number of the table.
fn number_of(n: u8) -> Primitive
    ensures { result ≡ spec.number_of n }
{
    Primitive::Number(Num::Whole(Int::new(n as i64).unwrap()))
}

/// A primitive value of the table.
fn primitive_of(alloc: Global, constant: &Constant) -> Result<Primitive, Memory>
    ensures { IfOk result (λ value. value ≡ spec.primitive_of constant.now) }
{
    let value = match constant {
        Constant::Undefined => Primitive::Undefined,
        Constant::NaN => Primitive::Number(Num::NaN),
        Constant::False => Primitive::Bool(false),
        Constant::Number(n) => number_of(*n),
        Constant::Empty => Primitive::Text(Text16::from_units(alloc, Vec::new(alloc))?),
        Constant::ErrorName(kind) => Primitive::Text(Text16::from_ascii(
            alloc,
            error_name(*kind).as_bytes(),
        )?),
    };
    Ok(value)
}

/// What a property of the table has.
fn content_of(alloc: Global, content: &Content) -> Result<SpecContent, Memory>
    ensures { IfOk result (λ made. made ≡ spec.content_of content.now) }
{
    let spec = match content {
        Content::Prim(constant) => SpecContent::Prim(primitive_of(alloc, constant)?),
        Content::Object(site) => SpecContent::Object(*site),
        Content::Row => SpecContent::Row,
    };
    Ok(spec)
}

/// A property of the table.
fn property_of(
    alloc: Global,
    name: &[u8],
    content: &Content,
    attrs: Attrs,
) -> Result<PropertySpec, Memory>
    ensures { IfOk result (λ property. property
        ≡ spec.property_of (spec.entry_of name.now content.now attrs)) }
{
    Ok(PropertySpec {
        name: builtin_number(name),
        content: content_of(alloc, content)?,
        attrs,
    })
}

/// Properties of the table.
fn properties_of(alloc: Global, entries: &[Entry]) -> Result<Seq<PropertySpec>, Memory>
    ensures { IfOk result (λ properties. properties
        ≡ map (λ e. spec.property_of (code.seen_entry e)) entries.now) }
{
    let mut properties = Vec::new(alloc);
    for (name, content, attrs) in entries {
        properties.push(property_of(alloc, name, content, *attrs)?)?;
    }
    Ok(Seq::from_vec(properties))
}

/// The scope of an object of the table: that of a function is the global object.
fn scope_of(role: &Role) -> Option<Site>
    ensures { result ≡ spec.scope_of role.now }
{
    match role {
        Role::Function(_) | Role::Constructor(_, _) => Some(GLOBAL),
        _ => None,
    }
}

/// The internal value of an object of the table.
fn value_of(alloc: Global, role: &Role) -> Result<Option<Primitive>, Memory>
    ensures { IfOk result (λ value. value ≡ spec.value_of role.now) }
{
    match role {
        Role::Wrapper(constant) => Ok(Some(primitive_of(alloc, constant)?)),
        _ => Ok(None),
    }
}

/// An object of the table with these properties.
fn object_with(
    alloc: Global,
    object: &BuiltinObject,
    properties: Seq<PropertySpec>,
) -> Result<ObjectSpec, Memory>
    ensures { IfOk result (λ made. made ≡ spec.object_with object.now properties) }
{
    Ok(ObjectSpec {
        site: object.site,
        prototype: object.prototype,
        scope: scope_of(&object.role),
        value: value_of(alloc, &object.role)?,
        properties,
    })
}

/// The object of a row of the table.
fn object_of(alloc: Global, object: &BuiltinObject, entries: &[Entry]) -> Result<ObjectSpec, Memory>
    ensures { IfOk result (λ made. made ≡ spec.object_with object.now
        (map (λ e. spec.property_of (code.seen_entry e)) entries.now)) }
{
    let properties = properties_of(alloc, entries)?;
    object_with(alloc, object, properties)
}

/// The objects of the table.
fn objects_of(alloc: Global, table: &[TableRow]) -> Result<Seq<ObjectSpec>, Memory>
    ensures { IfOk result (λ objects. objects
        ≡ map (λ row. spec.object_with row.1 (map (λ e. spec.property_of (code.seen_entry e))
        row.2.now)) table.now) }
{
    let mut objects = Vec::new(alloc);
    for (_, object, entries) in table {
        objects.push(object_of(alloc, object, entries)?)?;
    }
    Ok(Seq::from_vec(objects))
}

/// The rows of the global object, the prototypes, the constructors and `Math`.
fn object_rows(alloc: Global) -> Result<Vec<TableRow>, Memory>
    ensures { IfOk result (λ rows. map code.seen_row rows.items ≡ spec.object_rows) }
{
    Ok(Vec::from_slice(alloc, &OBJECTS)?)
}

/// The rows of the other functions.
fn function_rows(alloc: Global) -> Result<Vec<TableRow>, Memory>
    ensures { IfOk result (λ rows. map code.seen_row rows.items ≡ spec.function_rows) }
{
    Ok(Vec::from_slice(alloc, &FUNCTION_OBJECTS)?)
}

/// The rows of the table.
fn table(alloc: Global) -> Result<Vec<TableRow>, Memory>
    ensures { IfOk result (λ rows. map code.seen_row rows.items ≡ spec.table_rows) }
{
    let mut rows = object_rows(alloc)?;
    rows.extend_from_slice(&function_rows(alloc)?)?;
    Ok(rows)
}

/// The objects of the whole table.
#[tactic(auto, unfolding(crate::specs::Table::opening_objects))]
fn all_objects(alloc: Global, table: &[TableRow]) -> Result<Seq<ObjectSpec>, Memory>
    requires { map code.seen_row table.now ≡ spec.table_rows }
    ensures { IfOk result (λ objects. objects ≡ spec.opening_objects) }
{
    objects_of(alloc, table)
}

/// The objects that are there when a run begins, each behind its prototype and its scope. `Memory`
/// comes where memory is refused.
pub fn opening_objects(alloc: Global) -> Result<Seq<ObjectSpec>, Memory>
    ensures { IfOk result (λ objects. objects ≡ spec.opening_objects) }
{
    let table = table(alloc)?;
    all_objects(alloc, &table)
}

/// The row of the object that has a site.
fn row_with(table: &[TableRow], site: u32) -> Option<&TableRow>
    ensures { option_map (λ row. code.seen_row row.now) result
        ≡ spec.row_with (map code.seen_row table.now) site }
{
    for row in table {
        if row.1.site.0 == site {
            return Some(row);
        }
    }
    None
}

/// The number of a function of the table, where the first one has this number.
fn function_of(first: u32, number: u8) -> FnId
    requires { first < 2 ^ 31 }
    ensures { result ≡ spec.function_of first number }
{
    FnId(first + number as u32)
}

/// The function that `[[Call]]` of an object of the table runs.
fn call_of(first: u32, role: &Role) -> Option<FnId>
    requires { first < 2 ^ 31 }
    ensures { result ≡ option_map (spec.function_of first) (spec.call_of role.now) }
{
    match role {
        Role::Function(call) | Role::Constructor(call, _) => Some(function_of(first, *call)),
        _ => None,
    }
}

/// The function that `[[Construct]]` of an object of the table runs.
fn construct_of(first: u32, role: &Role) -> Option<FnId>
    requires { first < 2 ^ 31 }
    ensures { result ≡ option_map (spec.function_of first) (spec.construct_of role.now) }
{
    match role {
        Role::Constructor(_, construct) => Some(function_of(first, *construct)),
        _ => None,
    }
}

/// The site of an object of the table, which has this path and this class.
fn site_of(
    alloc: Global,
    first: u32,
    class: Class,
    path: &[u8],
    role: &Role,
) -> Result<SiteInfo, Memory>
    requires first { first < 2 ^ 31 }
    requires path { length path.now ≤ max_units }
    ensures { IfOk result (λ site. site ≡ spec.site_of first class path.now role.now) }
{
    let path = Text16::from_ascii(alloc, path)?;
    Ok(SiteInfo {
        class,
        place: NO_PLACE,
        owner: None,
        calls: call_of(first, role),
        constructs: construct_of(first, role),
        builtin: Some(path),
    })
}

/// Adds the site of this number, if an object of the table has it.
fn add_site(
    alloc: Global,
    sites: &mut Vec<SiteInfo>,
    first: u32,
    table: &[TableRow],
    site: u32,
    class: Class,
) -> Result<(), Memory>
    requires first { first < 2 ^ 31 }
    requires paths { IsTrue (list_all (λ row. is_short row.path) (map code.seen_row table.now)) }
    ensures { OnOk result (sites.new.items ≡ sites.old.items
        ++ spec.sites_with first (map code.seen_row table.now) (site, class)) }
{
    if let Some((path, object, _)) = row_with(table, site) {
        sites.push(site_of(alloc, first, class, path, &object.role)?)?;
    }
    Ok(())
}

/// The sites of the objects of the table, by their numbers, of which each has its class.
fn sites_of(
    alloc: Global,
    first: u32,
    table: &[TableRow],
    classes: &[Class],
) -> Result<Vec<SiteInfo>, Memory>
    requires first { first < 2 ^ 31 }
    requires paths { IsTrue (list_all (λ row. is_short row.path) (map code.seen_row table.now)) }
    requires few { length classes.now < 2 ^ 31 }
    ensures { IfOk result (λ sites. sites.items
        ≡ flat_map (spec.sites_with first (map code.seen_row table.now))
        (enumerate_from 0 classes.now)) }
{
    let mut sites = Vec::new(alloc);
    let mut left = classes;
    let mut site = 0;
    while let [class, rest @ ..] = left {
        add_site(alloc, &mut sites, first, table, site, *class)?;
        left = rest;
        site += 1;
    }
    Ok(sites)
}

/// The sites of the whole table.
#[tactic(auto, unfolding(crate::specs::Table::builtin_sites))]
fn all_sites(
    alloc: Global,
    first: u32,
    table: &[TableRow],
    classes: &[Class],
) -> Result<Vec<SiteInfo>, Memory>
    requires first { first < 2 ^ 31 }
    requires table { map code.seen_row table.now ≡ spec.table_rows }
    requires classes { classes.now ≡ BUILTIN_CLASSES }
    ensures { IfOk result (λ sites. sites.items ≡ spec.builtin_sites first) }
{
    sites_of(alloc, first, table, classes)
}

/// The sites of the built-in objects, by their numbers, in a program in which the first function of
/// the table has the number `first_function`. `Memory` comes where memory is refused.
pub fn builtin_sites(alloc: Global, first_function: u32) -> Result<Vec<SiteInfo>, Memory>
    requires { first_function < 2 ^ 31 }
    ensures { IfOk result (λ sites. sites.items ≡ spec.builtin_sites first_function) }
{
    let table = table(alloc)?;
    all_sites(alloc, first_function, &table, &BUILTIN_CLASSES)
}
