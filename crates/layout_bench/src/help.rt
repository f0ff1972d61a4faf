// What the program says of itself.
pub const HELP: &str = "\
layout_bench: reads commands from standard input, one a line, and prints an answer to each.

  host words WIDTHS NUMBERS STORAGE   a host over words, as: host words 3,5 7 0xab,0x0
  host bytes WIDTHS NUMBERS STORAGE   a host over bytes, as: host bytes 3,5 7 ab00
  window NAME WIDTHS                  a window on a variable; at most two on top of each other
  width NAME                          the width of a variable
  number NAME                         a number
  read NAME OFFSET COUNT              a part of a variable
  write NAME OFFSET COUNT 0xVALUE     sets a part of a variable
  storage                             what the host keeps

  name FIELD \"TEXT\"                   a name that each start from here on hands in
  around FUNCTION \"BEFORE\" \"AFTER\"   the texts around what a function makes
  entries KIND N                      how many entries each start from here on lends
  start                               begins a layout, and ends the one before
  text LIST \"BYTES\"                   adds a text to a list
  group LIST DELIMITER CHILD          adds a list between delimiters to a list
  concatenation                       begins a concatenation
  component literal WIDTH 0xVALUE START END
  component variable LIST START END
  component filler START END          adds a component; a bound is -, X or LIST:X
  seal RETURNING INITIAL NONZERO COMMON ALIGNMENT CLAIM..
                                      ends the layout with what is claimed, as: seal 0 - 1 8 0 d8 d8

WIDTHS and NUMBERS are decimals joined by commas; - stands for an empty list or storage.
Blank lines and lines that begin with # are passed over.
In quotes, \\\" and \\\\ stand for the second sign, and \\xHH for any byte.
A line that is none of these answers `unreadable`; one that needs a host, room for a window or an
open layout, and has none, answers `out of turn`. Neither changes anything.";
