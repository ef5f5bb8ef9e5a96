//! The file conllu.js of the page, as `deskview page` serves it.
//!
//! This module is generated: `tools/page --write` writes it from the folder page/. Change the file there, and never here.

/// The file conllu.js.
pub const CONLLU_JS: &str = r##"// Changes of CoNLL-U as it is typed, and hints.
//
// What is read here may be half written, so nothing is refused: the desk alone judges it.

import { RELATIONS, TAGS, decoder } from './desk.js';
import { COLUMN_COUNT, DEPREL, DEPS, FORM, HEAD, ID, UPOS, WORD, isRow } from './rows.js';

// ---- changes of a text

/** The text with one field of a line changed. White space that would cut the line becomes a space. */
export function withField(text, at, column, value) {
  const lines = text.split('\n'), fields = lines[at].split('\t');
  fields[column] = value.replace(/[\t\n\r]+/g, ' ').normalize('NFC') || '_';
  return lines.with(at, fields.join('\t')).join('\n');
}

/** A line in which the numbers of words from `from` on are shifted by `by`. What refers to the word `gone` refers to none. */
function shifted(line, from, by, gone) {
  const fields = line.split('\t');
  if (!isRow(line) || fields.length !== COLUMN_COUNT) return line;
  const move = digits => String(Number(digits) + (Number(digits) >= from ? by : 0));
  const isGone = pair => pair.slice(0, pair.indexOf(':')) === gone;
  const [id, head, deps] = [fields[ID], fields[HEAD], fields[DEPS]];
  fields[ID] = id.replace(/^\d+/, move).replace(/-(\d+)$/, (_, digits) => '-' + move(digits));
  if (/^\d+$/.test(head)) fields[HEAD] = head === gone ? '_' : move(head);
  if (deps !== '_') fields[DEPS] = deps.split('|').filter(pair => !isGone(pair)).map(pair => pair.replace(/^\d+/, move)).join('|') || '_';
  return fields.join('\t');
}

/** The text with one more word after the word of this line. All later numbers are one higher. */
export function withWord(text, at) {
  const lines = text.split('\n'), word = Number(lines[at].split('\t')[ID]);
  const later = lines.map(line => shifted(line, word + 1, 1, null));
  return later.toSpliced(at + 1, 0, [word + 1, '_', '_', 'X', '_', '_', word, 'dep', '_', '_'].join('\t')).join('\n');
}

/** The text without the row of this line. If it is a word, all later numbers are one lower. */
export function withoutRow(text, at) {
  const lines = text.split('\n'), id = lines[at].split('\t')[ID], rest = lines.toSpliced(at, 1);
  return (WORD.test(id) ? rest.map(line => shifted(line, Number(id) + 1, -1, id)) : rest).join('\n');
}

// ---- hints

/** What is amiss in the fields of a word. `ids` are those of all words. */
function hintsOfWord({ id, fields }, ids) {
  const head = fields[HEAD], relation = fields[DEPREL], base = relation.split(':')[0], found = [];
  if (!TAGS.includes(fields[UPOS])) found.push(`UPOS ${fields[UPOS]} is not universal`);
  if (head !== '0' && (head === id || !ids.has(head))) found.push(`HEAD of ${fields[FORM]} is no other word`);
  if (!RELATIONS.includes(base)) found.push(`DEPREL ${relation} is not universal`);
  else if ((base === 'root') !== (head === '0')) found.push('root goes with HEAD 0, and nothing else does');
  return found;
}

function hintsOfRow(row, ids) {
  if (row.fields.length !== COLUMN_COUNT) return [`${row.fields.length} fields in place of ten`];
  if (row.kind === 'odd') return ['the ID is none'];
  if (row.fields.includes('')) return ['a field is empty: write _'];
  return row.kind === 'word' ? hintsOfWord(row, ids) : [];
}

/** A word of each circle. The walk from a word stops where an earlier one has gone. */
function circles(words) {
  const byId = new Map(words.map(word => [word.id, word])), walked = new Map(), found = [];
  for (const start of words) {
    let word = start;
    for (; word && !walked.has(word); word = byId.get(word.fields[HEAD])) walked.set(word, start);
    if (word && walked.get(word) === start) found.push(word);
  }
  return found;
}

/** What is amiss in rows, in words, while a sentence is typed. The desk judges it, and only that counts. */
export function hints(rows) {
  const words = rows.filter(row => row.kind === 'word'), ids = new Set(words.map(word => word.id));
  const roots = words.filter(word => word.fields[HEAD] === '0');
  const at = (row, what) => `line ${row.at + 1}: ${what}`;
  return [
    ...rows.flatMap(row => hintsOfRow(row, ids).map(what => at(row, what))),
    ...words.flatMap((word, i) => (word.id === String(i + 1) ? [] : [at(word, `the ID should be ${i + 1}`)])),
    ...(words.length && roots.length !== 1 ? [at(words[0], `${roots.length} words have HEAD 0`)] : []),
    ...circles(words).map(word => at(word, 'this word hangs from itself')),
  ];
}

// ---- the line of a refusal

/** The lines of a file, as bytes. */
function byteLines(bytes) {
  const lines = [];
  for (let from = 0; from < bytes.length;) {
    const end = bytes.indexOf(10, from);
    lines.push(bytes.subarray(from, end < 0 ? bytes.length : end));
    from = end < 0 ? bytes.length : end + 1;
  }
  return lines;
}

/** The line, from 0, of a row of a sentence, both counted from 1. Row 0 is the first line of the sentence. */
function lineOfRow(lines, sentence, row) {
  const isBlank = line => line.length === 0, isComment = line => line[0] === 35;
  let at = 0;
  for (let left = sentence - 1; left > 0 && at < lines.length; at++) if (isBlank(lines[at])) left--;
  if (row === 0) return at;
  for (let left = row; at < lines.length; at++) if (!isComment(lines[at]) && --left === 0) break;
  return at;
}

/** The line of a file that a refusal is about: its number from 1, and its text. Null where it is about none. */
export function faultLine(bytes, { what, values }) {
  if (!['8', '9', '16'].includes(what)) return null;
  const lines = byteLines(bytes), [first, , row] = values.map(Number);
  const at = what === '8' ? first - 1 : lineOfRow(lines, first, what === '9' ? row : 0);
  return { number: at + 1, text: decoder().decode(lines[at] ?? new Uint8Array()) };
}

// ---- repairs

/** What can be put right in a file without a choice, by the code of its first faulty line. */
const REPAIRS = {
  2: { label: 'Import it in normalization form C', change: text => text.normalize('NFC') },
  3: { label: 'Import it with line feeds alone', change: text => text.replaceAll('\r\n', '\n') },
};

/** How a file can be put right that was refused: a label, and its bytes then. Null where that is not known. */
export function repaired(bytes, { what, values }) {
  const repair = what === '8' ? REPAIRS[values[1]] : undefined;
  if (!repair) return null;
  try {
    const text = new TextDecoder('utf-8', { ignoreBOM: true, fatal: true }).decode(bytes), after = repair.change(text);
    return after === text ? null : { label: repair.label, bytes: new TextEncoder().encode(after) };
  } catch {
    return null;                       // it is no UTF-8
  }
}

// ---- two texts

const linesOf = text => text.replace(/\n+$/, '').split('\n');

/** How many lines at most `x` from `i` on and `y` from `j` on have in common, in order: at `i * (y.length + 1) + j`. */
function commonLines(x, y) {
  const width = y.length + 1, most = new Uint16Array((x.length + 1) * width);
  for (let i = x.length - 1; i >= 0; i--) {
    for (let j = y.length - 1; j >= 0; j--) {
      most[i * width + j] = x[i] === y[j] ? most[(i + 1) * width + j + 1] + 1
        : Math.max(most[(i + 1) * width + j], most[i * width + j + 1]);
    }
  }
  return most;
}

/** Lines that went and lines that came, beside each other where their IDs are the same. */
function paired(gone, fresh) {
  const id = line => line.split('\t', 1)[0], found = [];
  let rest = fresh;
  for (const line of gone) {
    const at = line.includes('\t') ? rest.findIndex(other => id(other) === id(line)) : -1;
    if (at < 0) {
      found.push(['gone', line, '']);
    } else {
      found.push(...rest.slice(0, at).map(other => ['new', '', other]), ['turned', line, rest[at]]);
      rest = rest.slice(at + 1);
    }
  }
  return [...found, ...rest.map(line => ['new', '', line])];
}

/** The changed middle of two texts. */
function middle(x, y) {
  const most = commonLines(x, y), width = y.length + 1, found = [];
  let i = 0, j = 0, gone = [], fresh = [];
  while (i < x.length || j < y.length) {
    if (i < x.length && j < y.length && x[i] === y[j]) {
      found.push(...paired(gone, fresh), ['same', x[i++], y[j++]]);
      [gone, fresh] = [[], []];
    } else if (j === y.length || (i < x.length && most[(i + 1) * width + j] >= most[i * width + j + 1])) gone.push(x[i++]);
    else fresh.push(y[j++]);
  }
  return [...found, ...paired(gone, fresh)];
}

/** Two texts line by line: `[kind, line of a, line of b]`. Kinds are `same`, `gone`, `new`, and `turned` for two lines of one ID. */
export function diff(a, b) {
  const x = linesOf(a), y = linesOf(b), least = Math.min(x.length, y.length);
  let start = 0, end = 0;
  while (start < least && x[start] === y[start]) start++;
  while (end < least - start && x.at(-1 - end) === y.at(-1 - end)) end++;
  const same = line => ['same', line, line];
  return [
    ...x.slice(0, start).map(same),
    ...middle(x.slice(start, x.length - end), y.slice(start, y.length - end)),
    ...x.slice(x.length - end).map(same),
  ];
}

/** What came of a thing that two people may have changed, or null where both changed it, and differently. */
function agreed(base, mine, theirs) {
  if (mine === theirs || theirs === base) return mine;
  return mine === base ? theirs : null;
}

/**
 * A text with the changes of both, field by field, from the text that both began with. Null where both changed one field
 * or one comment differently, or where one of them added or removed a line.
 */
export function merged(base, mine, theirs) {
  const [b, m, t] = [base, mine, theirs].map(text => text.split('\n').map(line => line.split('\t')));
  if (b.length !== m.length || b.length !== t.length) return null;
  const lines = [];
  for (const [at, fields] of b.entries()) {
    if (fields.length !== m[at].length || fields.length !== t[at].length) return null;
    const both = fields.map((field, column) => agreed(field, m[at][column], t[at][column]));
    if (both.includes(null)) return null;
    lines.push(both.join('\t'));
  }
  return lines.join('\n');
}
"##;
