// What the workbench says of itself.
pub const HELP: &str = "\
workbench: reads commands from standard input, one a line, and prints an answer to each.

  host words WIDTHS NUMBERS STORAGE   a host over words, as: host words 3,5 7 0xab,0x0
  host bytes WIDTHS NUMBERS STORAGE   a host over bytes, as: host bytes 3,5 7 ab00
  window NAME WIDTHS                  a window on a variable; at most two on top of each other
  width NAME                          the width of a variable
  number NAME                         a number
  read NAME OFFSET COUNT              a part of a variable
  write NAME OFFSET COUNT 0xVALUE     sets a part of a variable
  storage                             what the host keeps

WIDTHS and NUMBERS are decimals joined by commas; - stands for an empty list or storage.
Blank lines and lines that begin with # are passed over.
A line that is none of these answers `unreadable`; one that needs a host, or room for a window,
and has none, answers `out of turn`. Neither changes anything.";
