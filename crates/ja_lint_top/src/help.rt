//! What is said of the program itself.

/// What `--help` writes.
pub const HELP: &[u8] = b"\
usage: tajs-lint [--device NAME[=KINDS]].. [--format text|html|sarif] [--rows]
                 [--help] [--version] [--] [FILE..]

Tells the type faults of a JavaScript program before it runs: a call of what is
no function, a property of undefined or null, a name that is bound nowhere. The
files are one program with one global object, in which the functions of each are
there from the start; one that is named twice is read once. Without a file, and
for `-`, standard input is read.

  --device NAME[=KINDS]  a function of the page around the program, and what it
                         returns: undefined, null, boolean, number, string, or
                         several with | between them; undefined without KINDS.
                         Without --device these are there: input=boolean,
                         number=number, text=string, print
  --format text|html|sarif
                         lines that editors read (text, where nothing is said),
                         a page with the text, or SARIF 2.1.0, which build
                         servers read
  --rows                 tell each read in a built-in function of what this
                         tool doesn't know
  --help                 this text
  --version              the version

Exit status: 0 without a fault, 1 with one, 2 where there is no answer.
";

/// The version.
pub const VERSION: &str = "1.0.0";
