use std::alloc::Global;
use std::fmt::Write;

/// What is printed of a row. Where memory is refused it lacks something, and the comparison fails.
#[derive(Drop)]
pub struct Out {
    pub alloc: Global,
    pub text: String,
}

/// Adds an item to a list.
pub fn add<T: Drop>(list: &mut Vec<T>, item: T) {
    let _ = list.push(item);
}

impl Out {
    pub fn new(alloc: Global) -> Out {
        Out {
            alloc,
            text: String::new(alloc),
        }
    }

    pub fn put(&mut self, text: &str) {
        let _ = self.text.push_str(text);
    }

    pub fn put_number(&mut self, number: u64) {
        let _ = write!(self.text, "{number}");
    }

    /// A number and what stands behind it.
    pub fn put_before(&mut self, number: u64, text: &str) {
        self.put_number(number);
        self.put(text);
    }

    /// A number behind a text.
    pub fn put_behind(&mut self, text: &str, number: u64) {
        self.put(text);
        self.put_number(number);
    }

    pub fn put_signed(&mut self, number: i64) {
        let _ = write!(self.text, "{number}");
    }

    /// Units, those of ASCII as characters and others as `<number>`.
    pub fn put_units(&mut self, units: &[u16]) {
        for unit in units {
            self.put_unit(*unit);
        }
    }

    fn put_unit(&mut self, unit: u16) {
        match char::from_u32(u32::from(unit)) {
            Some(c) if unit > 32 && unit < 127 => {
                let _ = self.text.push(c);
            }
            _ => {
                self.put("<");
                self.put_number(u64::from(unit));
                self.put(">");
            }
        }
    }

    /// A line of its own.
    pub fn line(&mut self, label: &str, answer: &str) {
        self.put("\n    ");
        self.put(label);
        self.put(": ");
        self.put(answer);
    }

    pub fn line_of_number(&mut self, label: &str, number: u64) {
        self.line(label, "");
        self.put_number(number);
    }

    pub fn line_of_bool(&mut self, label: &str, is_true: bool) {
        self.line(label, if is_true { "yes" } else { "no" });
    }
}
