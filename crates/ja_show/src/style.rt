//! What each page begins with. Nothing is taken from elsewhere: the policy of the page allows its
//! own style alone.

/// Up to the title.
pub const HEAD: &[u8] = b"<!DOCTYPE html>
<html lang=\"en\">
<head>
<meta charset=\"utf-8\">
<meta http-equiv=\"Content-Security-Policy\" content=\"default-src 'none'; style-src 'unsafe-inline'\">
<meta name=\"viewport\" content=\"width=device-width, initial-scale=1\">
<title>";

/// From the title up to the heading.
pub const STYLE: &[u8] = b"</title>
<style>
:root { color-scheme: light dark; --certain: #c4122f; --possible: #9a5b00; --note: #5a6472;
  --edge: #d5d9df; --target: #fff4c2; --certain-back: #ffdbe0; --possible-back: #ffe9c7;
  --note-back: #e6e9ee; }
@media (prefers-color-scheme: dark) { :root { --certain: #ff8a9a; --possible: #ffc266;
  --note: #a9b3c1; --edge: #3b424c; --target: #46400f; --certain-back: #5a1522;
  --possible-back: #4d3509; --note-back: #323943; } }
body { font: 15px/1.5 system-ui, sans-serif; margin: 1.5rem auto; max-width: 110ch;
  overflow-wrap: anywhere; padding: 0 1rem; }
h1 { font-size: 1.3rem; }
h2 { font-size: 1.05rem; margin: 1.6rem 0 0.4rem; }
p { white-space: pre-line; }
code { font: 13px/1.6 ui-monospace, monospace; tab-size: 4; white-space: pre-wrap; }
ul { list-style: none; padding: 0; }
ul li { border-left: 4px solid var(--note); margin: 0.3rem 0; padding-left: 0.6rem; }
li.certain, li.error { border-color: var(--certain); }
li.possible { border-color: var(--possible); }
ol { border-top: 1px solid var(--edge); font: 13px/1.6 ui-monospace, monospace;
  padding: 0.6rem 0 0 6ch; }
ol li::marker { color: var(--note); }
ol li:last-child:has(> code:empty) { display: none; }
ol li:target { background: var(--target); }
mark { border-bottom: 2px solid var(--note); background: var(--note-back); color: inherit;
  cursor: help; padding: 0 1px; }
mark.certain, mark.error { border-color: var(--certain); background: var(--certain-back); }
mark.possible { border-color: var(--possible); background: var(--possible-back); }
sup { font-size: 0.7em; line-height: 0; padding: 0 0.2em; user-select: none; }
</style>
</head>
<body>
<h1>";
