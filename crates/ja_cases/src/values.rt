//! Abstract values.

use crate::out::Out;
use crate::primitives;
use ja_abstract::{Mask, NumberPart, TextPart};
use ja_base::{Label, Memory, Site};
use ja_graph::{Attrs, NO_ATTRS};
use ja_prim::{Int, Text16};
use ja_value::{AProp, AValue, LabelSet, exact_attrs, is_index_text};
use std::collections::BTreeMap;

/// A label, whose letter is `n` where the object is new, and `o` where it is old.
fn put_label(out: &mut Out, label: Label) {
    out.put_behind(if label.old { " o" } else { " n" }, u64::from(label.site.0));
}

/// Labels.
fn put_labels(out: &mut Out, labels: &[Label]) {
    for label in labels {
        put_label(out, *label);
    }
}

/// The labels of a set below a site.
fn line_of_labels(out: &mut Out, label: &str, labels: &LabelSet, sites: u32) {
    out.line(label, "");
    if let Ok(labels) = labels.list(out.alloc, sites) {
        put_labels(out, labels.as_slice());
    }
}

fn label(site: u32, old: bool) -> Label {
    Label {
        site: Site(site),
        old,
    }
}

/// Joins a value in, and tells whether that changed it.
fn line_of_join(out: &mut Out, label: &str, value: &mut AValue, other: &AValue) {
    if let Ok(is_changed) = value.join(out.alloc, other) {
        out.line(label, if is_changed { "changes" } else { "no change" });
    }
    out.put(match value.number {
        NumberPart::Nothing => ", no number",
        NumberPart::One(_) => ", one number",
        NumberPart::Index => ", indices",
        NumberPart::OtherWhole => ", other numbers",
        NumberPart::Whole => ", all numbers",
    });
    if let TextPart::OtherText = value.text {
        out.put(", other texts");
    }
}

/// Joins the value of a word in.
fn line_of_word(out: &mut Out, label: &str, value: &mut AValue, word: &str) {
    let primitive = primitives::value(out.alloc, word);
    if let Ok(other) = AValue::of_primitive(out.alloc, &primitive) {
        line_of_join(out, label, value, &other);
    }
}

/// Whether a text is that of an array index.
fn line_of_index(out: &mut Out, text: &str) {
    if let Ok(units) = Text16::from_str(out.alloc, text) {
        out.line_of_bool(text, is_index_text(&units));
    }
}

fn joins(out: &mut Out, five: Int) {
    let mut value = AValue::of_number(out.alloc, five);
    line_of_word(out, "5 and 5", &mut value, "5");
    out.line_of_bool("which is 5", value.number == NumberPart::One(five));
    for (label, word) in [("and -1", "-1"), ("and 'x'", "'x"), ("and '01'", "'01")] {
        line_of_word(out, label, &mut value, word);
    }
    line_of_index(out, "4294967294");
    line_of_index(out, "4294967295");
}

/// Labels that age.
fn ages(out: &mut Out, value: &AValue) {
    out.line_of_bool("n3 is present among 3 sites", value.is_present(3));
    out.line_of_bool("n3 is a part among 4 sites", value.has_part(4));
    if let Ok(aged) = value.aged(out.alloc, Site(3)) {
        line_of_labels(out, "n3, aged at 3", &aged.labels, 4);
        joins_labels(out, &aged.labels, &value.labels);
    }
    let is_empty = LabelSet::new(out.alloc).is_empty();
    out.line_of_bool("no label is empty", is_empty);
}

/// Labels of two sets, and one more.
fn joins_labels(out: &mut Out, labels: &LabelSet, others: &LabelSet) {
    if let Ok(mut both) = labels.copy() {
        if let Ok(is_changed) = both.join(others) {
            out.line_of_bool("o3 and n3 is more", is_changed);
        }
        let _ = both.insert(label(0, true));
        line_of_labels(out, "and o0", &both, 4);
        line_of_labels(out, "of 3 sites", &both, 3);
    }
}

/// Joins a property in, and tells whether that changed it.
fn line_of_more(out: &mut Out, label: &str, property: &mut AProp, other: &AProp) {
    if let Ok(is_changed) = property.join(out.alloc, other) {
        out.line_of_bool(label, is_changed);
    }
}

/// A property that is joined with itself and with what is absent.
fn property_joins(out: &mut Out, property: &mut AProp) {
    if let Ok(copy) = property.copy(out.alloc) {
        line_of_more(out, "a property and itself is more", property, &copy);
    }
    let absent = AProp::absent(out.alloc);
    line_of_more(
        out,
        "a property that may be absent is more",
        property,
        &absent,
    );
    if let Ok(aged) = property.aged(out.alloc, Site(3)) {
        out.line_of_bool("it may be absent", aged.value.flags.absent);
    }
}

/// Labels that are renamed, where site 1 may and sites 2 and 3 must have made an object.
fn renames(out: &mut Out) {
    let mask = |none: bool| Mask { none, some: true };
    let mut masks = BTreeMap::new(out.alloc);
    let _ = masks.insert(1, mask(true));
    let _ = masks.insert(2, mask(false));
    let _ = masks.insert(3, mask(false));
    let mut labels = LabelSet::new(out.alloc);
    for (site, old) in [(0, false), (1, false), (2, false), (3, true)] {
        let _ = labels.insert(label(site, old));
    }
    if let Ok(renamed) = labels.renamed(out.alloc, &masks) {
        line_of_labels(out, "n0 n1 n2 o3 with objects made", &renamed, 4);
    }
}

/// A value that gets one part after another, and its primitive parts at last: their ranks.
fn ranks(out: &mut Out) -> Result<(), Memory> {
    let alloc = out.alloc;
    let mut labels = LabelSet::new(alloc);
    for (site, old) in [(7, false), (2, true), (5, false)] {
        labels.insert(label(site, old))?;
    }
    let mut value = AValue::of_bools(alloc, true, true);
    out.line_of_number("true and false, ranked among 8 sites", value.rank(8));
    value.join(alloc, &AValue::whole_constant(alloc, 3))?;
    out.line_of_number("and 3", value.rank(8));
    value.join(
        alloc,
        &AValue::of_number_part(alloc, NumberPart::OtherWhole),
    )?;
    out.line_of_number("and other numbers", value.rank(8));
    value.join(alloc, &AValue::of_labels(alloc, labels))?;
    out.line_of_number("and n7 o2 n5", value.rank(8));
    out.line_of_number("without these", value.primitives_of(alloc)?.rank(8));
    Ok(())
}

pub fn values(out: &mut Out) {
    if let Some(five) = Int::new(5) {
        joins(out, five);
    }
    if let Ok(value) = AValue::of_label(out.alloc, label(3, false)) {
        ages(out, &value);
        let attrs = exact_attrs(Attrs {
            read_only: true,
            ..NO_ATTRS
        });
        property_joins(out, &mut AProp { value, attrs });
    }
    renames(out);
    let _ = ranks(out);
}
