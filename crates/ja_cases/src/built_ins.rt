//! The built-in objects: of each its path, its class, its prototype, its internal value if it has
//! one, and its properties. One that stands alone is out of the profile, or a function that isn't
//! built; any other has its value behind `=`. The letters of ReadOnly, DontEnum and DontDelete
//! stand behind it, where these are other than DontEnum alone, which is the rule of ES3 15.

use crate::out::Out;
use ja_base::Site;
use ja_graph::{Attrs, ObjectSpec, Program, PropertySpec, SpecContent};
use ja_prim::{Primitive, to_text};
use std::fmt::Write;

/// Adds the path of a site.
fn put_path(out: &mut Out, program: &Program, site: Site) {
    if let Some(info) = program.sites.as_slice().get(site.0 as usize) {
        if let Some(path) = &info.builtin {
            out.put_units(path.units());
        }
    }
}

/// Adds the class of a site.
fn put_class(out: &mut Out, program: &Program, site: Site) {
    if let Some(info) = program.sites.as_slice().get(site.0 as usize) {
        let _ = write!(out.text, " {:?} ", info.class);
    }
}

/// Adds a value, a text in quotes.
fn put_value(out: &mut Out, value: &Primitive) {
    let quote = match value {
        Primitive::Text(_) => "\"",
        _ => "",
    };
    out.put(quote);
    if let Ok(text) = to_text(out.alloc, value) {
        out.put_units(text.units());
    }
    out.put(quote);
}

/// Adds attributes, where they are other than DontEnum alone.
fn put_attrs(out: &mut Out, attrs: Attrs) {
    if attrs.dont_enum && !attrs.read_only && !attrs.dont_delete {
        return;
    }
    out.put("{");
    out.put(if attrs.read_only { "R" } else { "" });
    out.put(if attrs.dont_enum { "E" } else { "" });
    out.put(if attrs.dont_delete { "D" } else { "" });
    out.put("}");
}

/// Adds a property.
fn put_property(out: &mut Out, program: &Program, property: &PropertySpec) {
    out.put(" ");
    if let Some(name) = program.names.as_slice().get(property.name.0 as usize) {
        out.put_units(name.units());
    }
    match &property.content {
        SpecContent::Prim(value) => {
            out.put("=");
            put_value(out, value);
        }
        SpecContent::Object(site) => {
            out.put("=");
            put_path(out, program, *site);
        }
        SpecContent::Row => (),
    }
    put_attrs(out, property.attrs);
}

/// Adds an object.
fn put_object(out: &mut Out, program: &Program, object: &ObjectSpec) {
    out.put("\n    ");
    put_path(out, program, object.site);
    put_class(out, program, object.site);
    match object.prototype {
        Some(site) => put_path(out, program, site),
        None => out.put("null"),
    }
    if let Some(value) = &object.value {
        out.put(" ");
        put_value(out, value);
    }
    out.put(":");
    for property in object.properties.as_slice() {
        put_property(out, program, property);
    }
}

/// Adds the objects of a program.
pub fn put_objects(out: &mut Out, program: &Program) {
    for object in program.opening.as_slice() {
        put_object(out, program, object);
    }
}
