//! The file rows.js of the page, as `deskview page` serves it.
//!
//! This module is generated: `tools/page --write` writes it from the folder page/. Change the file there, and never here.

/// The file rows.js.
pub const ROWS_JS: &str = r##"// The rows of a sentence in CoNLL-U, while it is typed.
//
// What is read here may be half written, so nothing is refused: the desk alone judges it. Lines end at a line feed, and
// nowhere else.

export const ID = 0, FORM = 1, UPOS = 3, HEAD = 6, DEPREL = 7, DEPS = 8;
export const COLUMN_COUNT = 10;
export const WORD = /^[1-9]\d{0,5}$/;
const RANGE = /^[1-9]\d{0,5}-[1-9]\d{0,5}$/, EMPTY = /^(0|[1-9]\d{0,5})\.[1-9]\d{0,5}$/;

export const isRow = line => line !== '' && !line.startsWith('#');

function kindOf(fields) {
  if (fields.length !== COLUMN_COUNT) return 'odd';
  if (WORD.test(fields[ID])) return 'word';
  if (RANGE.test(fields[ID])) return 'span';
  return EMPTY.test(fields[ID]) ? 'empty' : 'odd';
}

/** The rows of a sentence. `at` is the line, from 0. What has no ten fields or no ID is `odd`. */
export function rowsOf(text) {
  return text.split('\n').flatMap((line, at) => {
    if (!isRow(line)) return [];
    const fields = line.split('\t'), [first, last] = fields[ID].split(/[-.]/, 2).map(Number);
    return [{ at, kind: kindOf(fields), id: fields[ID], fields, first, last }];
  });
}

const withoutSpaces = text => text.replace(/^ +| +$/g, '');

/** The value of the comment with this key, or the empty text. */
export function comment(text, key) {
  for (const line of text.split('\n')) {
    const at = line.indexOf('=');
    if (line.startsWith('#') && at > 0 && withoutSpaces(line.slice(1, at)) === key) return withoutSpaces(line.slice(at + 1));
  }
  return '';
}
"##;
