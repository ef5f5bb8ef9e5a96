//! The file page.js of the page, as `deskview page` serves it.
//!
//! This module is generated: `tools/page --write` writes it from the folder page/. Change the file there, and never here.

/// The file page.js.
pub const PAGE_JS: &str = r##"// The views: board, batch, sentence, moves.
//
// The page decides nothing. It asks the desk, and shows each answer as its line and in words.

import {
  COLUMNS, EVENTS, LONGEST_BODY, RELATIONS, STATES, TAGS, ask, button, check, el, faultOf, heads, isName, isStep, lastMove, mayAsk,
  mayCorrect, meaning, number, own, pages, plain, plural, prose, refusal, table, wide,
} from './desk.js';
import { faultLine, hints, merged, repaired, withField } from './conllu.js';
import { comment, rowsOf } from './rows.js';
import { drawTree } from './tree.js';
import { Editor, besides } from './edit.js';
import { Finder } from './find.js';

const main = document.getElementById('main'), toldBox = document.getElementById('told'), nameBox = document.getElementById('me');
const me = () => nameBox.value;
const heading = (...content) => el('h1', { tabindex: -1 }, ...content);
const link = (to, text) => el('a', { href: to }, own(text));
const failure = answer => el('p', { class: 'fault' }, el('code', {}, answer.line), ' ', ...prose(answer.words));

// How often a view was asked for. An answer for an earlier one comes too late, and is dropped.
let turn = 0;
// The number of the last move that the view shows, or null where it does not follow what others do.
let shownMove = null;

/** Shows an answer: its line as the desk gave it, and in words. */
function say({ ok, line, words }, more = '') {
  const isNobody = line === 'refused 1 BadName' && !isName(me());
  toldBox.className = ok ? 'done' : 'refused';
  const all = [more, words, isNobody ? 'say first who you are, above' : ''].filter(Boolean).join('; ');
  toldBox.replaceChildren(el('code', {}, line), ' ', ...prose(all));
  if (isNobody) nameBox.focus();
}

const sayRefused = (line, words = meaning(line)) => say({ ok: false, line, words });

/** How a place of a view is found in the next one: by its id, or by where it leads. */
function placeOf(node) {
  if (!main.contains(node)) return null;
  if (node.id) return `#${CSS.escape(node.id)}`;
  return node.matches('a[href]') ? `a[href="${CSS.escape(node.getAttribute('href'))}"]` : null;
}

/** Shows a view. The focus stays where it was, if the view has that place too. */
function put(title, ...nodes) {
  const place = placeOf(document.activeElement);
  document.title = `${title} \u2013 treedesk`;
  main.replaceChildren(...nodes.flat());
  if (place) main.querySelector(place)?.focus();
}

/** All batches. They are asked for again only where a command was done since. */
const batches = (() => {
  let list = null, at = null;
  return async () => {
    const now = await lastMove();
    if (now === null || now !== at) {
      list = await table('/page/batches');
      at = list.ok ? now : null;
    }
    return { ...list, at };
  };
})();

// What was typed or chosen in a field of a view, by the address and the field: a view is drawn anew when others do something.
const typed = new Map();

/** Gives a field what was in it before. */
function keeping(field) {
  const key = `${location.hash} ${field.id}`;
  if (typed.has(key)) field.value = typed.get(key);
  field.addEventListener('input', () => typed.set(key, field.value));
  return field;
}

const removed = batch => (batch.pulled === '0' ? '' : ` \u00b7 ${plain(batch.pulled)} pulled`);

// ---- the events of a batch

/** Sends an event, and shows the batch anew. */
async function send(event, batch, again) {
  const answer = await ask('POST', `/batches/${batch.name}/${event}`, { user: me() });
  const state = /state=(\S+)/.exec(answer.line)?.[1];
  say(answer, answer.ok ? `${batch.name} is ${state} now` : mayAsk(event, batch.worker, me()));
  if (answer.ok) again();
}

/** A button asks twice: the first click gives it a warning, which goes with the focus. */
function isSure(target, event) {
  if (target.dataset.sure) return true;
  target.dataset.sure = 'yes';
  target.textContent = `${event}: sure?`;
  target.addEventListener('blur', () => { delete target.dataset.sure; target.textContent = event; }, { once: true });
  return false;
}

/** The events that the state takes. One that the desk is likely to refuse says why, but asks all the same. */
function eventButton(event, batch, again) {
  const why = mayAsk(event, batch.worker, me());
  return button({ id: `e-${batch.no}-${event}`, class: why ? 'unlikely' : null, title: why || null, onclick: click => {
    if (event !== 'withdraw' || isSure(click.currentTarget, event)) send(event, batch, again);
  } }, event);
}

function eventButtons(batch, again) {
  if (isStep(batch.name)) return el('p', { class: 'fault' }, 'A browser cannot send this name; use ', el('code', {}, 'treedesk event'), '.');
  const buttons = EVENTS[batch.state].map(event => eventButton(event, batch, again));
  return el('div', { class: 'events', role: 'group', 'aria-label': `Events of ${batch.name}` }, buttons);
}

// ---- import

/** The form by which a file is imported. It is made once, so that it keeps its file while the board is drawn anew. */
const importer = (() => {
  const name = el('input', { id: 'import-name', maxlength: 32, spellcheck: 'false', autocomplete: 'off' });
  const chooser = el('input', { id: 'import-file', type: 'file', accept: '.conllu,.conll,.txt,text/plain' });
  const told = el('div', { id: 'import-told', role: 'status' });

  function suggestName() {
    const file = chooser.files[0]?.name.replace(/\.[^.]*$/, '').replace(/[^A-Za-z0-9._-]+/g, '-').slice(0, 32);
    if (file) name.value = file;
  }

  /** Shows the line of a file that a refusal is about, and puts the file right where that takes no choice. */
  function explain(file, bytes, why) {
    const line = why && faultLine(bytes, why), repair = why && repaired(bytes, why);
    if (line) {
      told.append(el('p', {}, own(file.name), `, line ${plain(line.number)}:`),
        el('pre', { class: 'fault', dir: 'ltr', tabindex: 0 }, line.text || '(an empty line)'));
    }
    if (repair) told.append(button({ id: 'repair', onclick: () => send(file, repair.bytes) }, repair.label));
  }

  async function send(file, bytes) {
    told.replaceChildren();
    const answer = await ask('POST', `/batches/${name.value}`, { user: me(), body: bytes });
    say(answer);
    if (!answer.ok) return explain(file, bytes, refusal(answer.line));
    chooser.value = name.value = '';
    await board();
  }

  async function sendChosen() {
    const file = chooser.files[0];
    told.replaceChildren();
    if (!file) return sayRefused('no file', 'choose a file first');
    if (!isName(name.value)) return sayRefused('refused 1 BadName');
    if (isStep(name.value)) return sayRefused(name.value, 'a browser cannot send this name: choose another');
    if (file.size > LONGEST_BODY) return sayRefused('refused long');
    await send(file, new Uint8Array(await file.arrayBuffer()));
  }

  const box = el('form', { id: 'import', onsubmit: event => { event.preventDefault(); sendChosen(); } },
    el('h2', {}, 'Import a file as a batch'),
    el('div', { class: 'tools' },
      el('label', {}, 'CoNLL-U file, or drop one here ', chooser), el('label', {}, 'Name of the batch ', name),
      el('button', { class: 'main' }, 'Import')),
    told);
  chooser.addEventListener('change', suggestName);
  for (const kind of ['dragover', 'dragleave', 'drop']) {
    box.addEventListener(kind, event => box.classList.toggle('over', event.type === 'dragover'));
  }
  box.addEventListener('drop', event => {
    if (!event.dataTransfer.files.length) return;
    chooser.files = event.dataTransfer.files;
    suggestName();
  });
  return box;
})();
// A browser opens a file that is dropped, which would leave the page.
for (const kind of ['dragover', 'drop']) addEventListener(kind, event => event.preventDefault());

// ---- the board

/** Sentences and words of a state by the batches: those of its batches, and in withdrawn what is pulled from any. */
function sums(state, list) {
  const total = (rows, column) => rows.reduce((all, row) => all + Number(row[column]), 0);
  const inside = list.filter(batch => batch.state === state), pulled = state === 'withdrawn' ? list : [];
  return [total(inside, 'sentences') + total(pulled, 'pulled'), total(inside, 'words') + total(pulled, 'pulled_words')];
}

function card(batch) {
  return el('article', { class: 'card' },
    el('h3', {}, link(`#/batch/${batch.no}`, batch.name)),
    el('p', {}, batch.worker ? [own(batch.worker), ' \u00b7 '] : '',
      `${plural(batch.sentences, 'sentence')}, ${plural(batch.words, 'word')}`, removed(batch)),
    eventButtons(batch, board));
}

/** A state with its total as the desk tells it, which the batches have to sum up to. */
function stateColumn(state, list, total) {
  const [sentences, words] = sums(state, list), cards = el('div', { class: 'cards' });
  const agrees = sentences === Number(total.sentences) && words === Number(total.words);
  pages(cards, list.filter(batch => batch.state === state), 50, card);
  return el('section', { class: `state ${state}`, id: `state-${state}`, 'aria-label': state },
    el('h2', {}, state), el('p', { class: 'total' }, `${plural(total.sentences, 'sentence')}, ${plural(total.words, 'word')}`),
    agrees ? null : el('p', { class: 'fault' }, `the batches have ${plain(sentences)} and ${plain(words)}: load again`), cards);
}

async function board() {
  const mine = ++turn, list = await batches(), totals = await table('/totals');
  if (mine !== turn) return;
  shownMove = list.at;
  const failed = [list, totals].find(answer => !answer.ok);
  if (failed) return put('Board', heading('Board'), failure(failed));
  const columns = STATES.map(state => stateColumn(state, list.rows, totals.rows.find(row => row.state === state)));
  const hint = list.rows.length ? '' : el('p', { class: 'quiet' }, 'The desk has no batch yet: import a CoNLL-U file below.');
  put('Board', heading('Board'), hint, el('div', { class: 'board' }, columns), importer);
}

// ---- a batch

/** The sentences that are shown. Each has a name, and says which rows it lets through. */
const KINDS = {
  all: () => true,
  corrected: row => row.rev !== '1',
  'not corrected': row => row.rev === '1',
  pulled: row => row.pulled === 'yes',
};

function sentenceRow(row) {
  const isPulled = row.pulled === 'yes';
  return el('tr', { class: isPulled ? 'pulled' : null },
    number(row.no), el('td', {}, link(`#/sentence/${row.no}`, row.sent_id)), el('td', { dir: 'auto' }, row.text),
    number(plain(row.words)), number(row.rev), el('td', {}, own(row.who)), el('td', {}, isPulled ? 'pulled' : ''));
}

/** The sentences of a batch, with what filters them. */
function sentencesTable(all) {
  const body = el('tbody'), count = el('span', { class: 'quiet' });
  const filter = keeping(el('input', { id: 'filter', type: 'search', placeholder: 'part of the text or of a sent_id' }));
  const kind = keeping(el('select', { id: 'some' }, Object.keys(KINDS).map(name => el('option', {}, name))));
  const fill = () => {
    const part = filter.value.toLowerCase(), has = value => value.toLowerCase().includes(part);
    const rows = all.filter(row => KINDS[kind.value](row) && (has(row.text) || has(row.sent_id)));
    count.textContent = `${plain(rows.length)} of ${plain(all.length)}`;
    body.replaceChildren();
    pages(body, rows, 500, sentenceRow, 7);
  };
  filter.addEventListener('input', fill);
  kind.addEventListener('change', fill);
  fill();
  return [
    el('div', { class: 'tools' }, el('label', {}, 'Show ', kind), el('label', {}, 'with ', filter), count),
    wide(el('table', { class: 'sentences' }, heads(['no', 'sent_id', 'text', 'words', 'rev', 'by', '']), body)),
  ];
}

async function batch(no) {
  const mine = ++turn, list = await batches(), inside = await table(`/page/batches/${no}`);
  if (mine !== turn) return;
  shownMove = list.at;
  const found = list.rows.find(row => row.no === no);
  if (!found || !inside.ok) return put('Batch', heading(`Batch ${no}`), failure(inside));
  put(found.name, heading('Batch ', own(found.name)),
    el('p', {}, el('span', { class: `badge ${found.state}` }, found.state), found.worker ? [' worker ', own(found.worker)] : '',
      ` \u00b7 ${plural(found.sentences, 'sentence')}, ${plural(found.words, 'word')}`, removed(found),
      ' \u00b7 ', el('a', { href: `#/moves/${no}` }, 'its moves')),
    eventButtons(found, () => batch(no)), sentencesTable(inside.rows));
}

// ---- a sentence

// How many hints are shown.
const HINTS = 8;

// How long the page waits after the last change before it asks the desk what is wrong, in milliseconds.
const PAUSE = 400;

// What was typed and not saved, by the number of the sentence, and the revision on which it was typed.
const drafts = new Map();

/** The number of a batch's last sentence. Those of a batch have numbers one after the other, pulled ones too. */
const lastOf = batch => Number(batch.first) + Number(batch.sentences) + Number(batch.pulled) - 1;

/** A fault of a text that is not saved, in the desk's words. */
function faultItem(row) {
  const { place, value, words } = faultOf(row);
  return el('li', {}, place, value ? [' ', el('code', {}, own(value))] : '', place ? ': ' : '', words);
}

/** Who wrote each revision of a sentence, and by which move. The first came with the import of its batch. */
async function writers(no, batchNo) {
  const { rows } = await table('/moves');
  const first = rows.find(move => move.kind === 'import' && move.batch === batchNo);
  return [first, ...rows.filter(move => move.kind === 'correct' && move.sentence === no)];
}

/** A sentence: its tree, its editor, its revisions. `base` is the revision that is edited, `revision` the current one. */
class Sentence {
  #tree = el('div');
  #status = el('p', { id: 'rev' });
  #hints = el('ul', { class: 'hints', 'aria-label': 'Hints' });
  #faults = el('ul', { id: 'faults', class: 'hints', 'aria-live': 'polite', 'aria-label': 'What the desk would refuse' });
  #stale = el('section', { id: 'stale', 'aria-label': 'A newer revision' });
  #history = el('section', { id: 'history', 'aria-label': 'Revisions' });
  #undo = button({ id: 'undo', onclick: () => this.#giveUp() }, 'Discard my changes');
  #save = button({ id: 'save', class: 'main', onclick: () => this.save() });
  #isEnhanced = false;
  #timer = 0;
  #pause = 0;
  #isAsking = false;

  /** `answer` has the current revision, `home` is its batch, `hit` the first and the last word to mark, or null. */
  constructor(no, answer, home, isPulled, hit) {
    Object.assign(this, { no, home, isPulled, hit, revision: answer.revision, current: answer.text });
    const draft = drafts.get(no);
    this.base = draft?.base ?? this.revision;
    this.editor = new Editor(draft?.text ?? this.current, () => this.#changed());
    this.#draw();
    this.tell();
    if (this.isChanged) this.#checkSoon();
  }

  /** Whether its tree and its table take a while. */
  get #isLong() {
    return this.editor.text.length > 10000;
  }

  get isChanged() {
    return this.editor.text !== this.current;
  }

  show() {
    const sentId = comment(this.current, 'sent_id'), { home } = this;
    put(sentId, heading(own(sentId), ' ', el('span', { class: 'quiet' }, `sentence ${this.no}`)),
      home ? this.#way(home) : '',
      el('p', { class: 'text', dir: 'auto' }, comment(this.current, 'text')),
      this.#tree, this.#tools(), this.#status, this.#hints, this.#faults, this.#stale, this.#history);
    if (this.#isLong) requestAnimationFrame(() => setTimeout(() => this.#addEditor()));
    else this.#addEditor();
    this.#tree.querySelector('.hit .form')?.scrollIntoView({ block: 'nearest', inline: 'center' });
    if (this.base !== this.revision) this.#showStale();
    main.onkeydown = event => this.#press(event);
  }

  #addEditor() {
    this.#stale.after(this.editor.node);
    this.editor.show();
  }

  /** Links to the batch, and to the sentences before and after. */
  #way(home) {
    const state = this.isPulled ? 'withdrawn' : home.state, at = Number(this.no);
    return el('nav', { class: 'tools', 'aria-label': 'In the batch' },
      link(`#/batch/${home.no}`, home.name), el('span', { class: `badge ${state}` }, this.isPulled ? 'pulled' : state),
      home.worker ? el('span', {}, 'worker ', own(home.worker)) : '',
      at > Number(home.first) ? el('a', { href: `#/sentence/${at - 1}`, rel: 'prev' }, '\u2190 previous') : '',
      at < lastOf(home) ? el('a', { href: `#/sentence/${at + 1}`, rel: 'next' }, 'next \u2192') : '');
  }

  #tools() {
    const enhanced = el('input', { id: 'enhanced', type: 'checkbox', onchange: () => { this.#isEnhanced = enhanced.checked; this.#draw(); } });
    return el('div', { class: 'tools' }, this.#save, this.#undo,
      button({ id: 'pull', onclick: () => this.#pull() }, this.isPulled ? 'Restore' : 'Pull'),
      button({ id: 'revisions', onclick: () => this.#showHistory() }, 'Revisions'),
      el('label', {}, enhanced, 'Enhanced relations (DEPS)'));
  }

  #press(event) {
    if (!(event.ctrlKey || event.metaKey) || event.key !== 's') return;
    event.preventDefault();
    document.activeElement.blur();                     // an open cell goes into the text
    if (!this.#save.disabled) this.save();
  }

  /** Draws the tree and the hints of what is typed. */
  #draw() {
    const rows = rowsOf(this.editor.text), scroll = this.#tree.firstChild?.scrollLeft;
    this.#tree.replaceChildren(drawTree(rows, {
      isEnhanced: this.#isEnhanced, hit: this.hit, onPick: line => this.editor.pick(line), onHead: (line, id) => this.#setHead(line, id),
    }));
    if (scroll !== undefined) this.#tree.firstChild.scrollLeft = scroll;
    const all = hints(rows), more = all.length > HINTS ? [`and ${all.length - HINTS} more`] : [];
    this.#hints.replaceChildren(...[...all.slice(0, HINTS), ...more].map(hint => el('li', {}, hint)));
  }

  #setHead(line, id) {
    this.editor.text = withField(this.editor.text, line, COLUMNS.indexOf('HEAD'), id);
  }

  #changed() {
    if (!this.isChanged && this.base === this.revision) drafts.delete(this.no);
    else drafts.set(this.no, { base: this.base, text: this.editor.text });
    this.tell();
    clearTimeout(this.#timer);
    this.#timer = setTimeout(() => this.#draw(), this.#isLong ? 300 : 20);
    this.#checkSoon();
  }

  /** Asks the desk what it would refuse, a short while after the last change. */
  #checkSoon() {
    clearTimeout(this.#pause);
    this.#pause = setTimeout(() => this.#check(), PAUSE);
  }

  /** One request is open at a time. A text that is changed meanwhile is asked about after it. */
  async #check() {
    if (this.#isAsking) return;
    if (!this.isChanged) return this.#showFaults([], false);
    const text = this.editor.text;
    this.#isAsking = true;
    const answer = await check(text);
    this.#isAsking = false;
    if (text !== this.editor.text) return this.#checkSoon();
    if (answer.ok) this.#showFaults(answer.rows.map(faultItem), true);
    else this.#showFaults([el('li', {}, `not checked: ${answer.status ? answer.words : 'the desk did not answer'}`)], false);
  }

  /** Shows what the desk would refuse. Where it has said so, the hints of the page say nothing more. */
  #showFaults(items, isTold) {
    const more = items.length > HINTS ? [el('li', {}, `and ${items.length - HINTS} more`)] : [];
    this.#faults.replaceChildren(...items.slice(0, HINTS), ...more);
    this.#hints.hidden = isTold;
  }

  /** Shows which revision is edited, and whether it can be saved. */
  tell() {
    const why = this.home ? mayCorrect(this.isPulled ? 'pulled' : this.home.state, this.home.worker, me()) : '';
    this.#save.disabled = this.#undo.disabled = !this.isChanged && this.base === this.revision;
    this.#save.textContent = `Save as revision ${this.base + 1}`;
    this.#save.title = why;
    this.#save.classList.toggle('unlikely', why !== '');
    const edited = this.base === this.revision ? '' : `; you edit revision ${this.base}`;
    this.#status.textContent = `revision ${this.revision} is the current one${edited}${this.isChanged ? '; not saved yet' : ''}`;
    this.#status.className = this.isChanged ? 'unsaved' : 'quiet';
  }

  async save() {
    const text = this.editor.text;
    const answer = await ask('POST', `/sentences/${this.no}/after/${this.base}`, { user: me(), body: text });
    say(answer, answer.ok ? '' : this.#save.title);
    if (answer.ok) {
      clearTimeout(this.#pause);
      drafts.delete(this.no);
      return sentence(this.no);
    }
    const told = refusal(answer.line);
    if (told?.what === '7') return this.#showStale();
    const line = told && faultLine(new TextEncoder().encode(text), told);
    if (!line) return;
    this.#hints.replaceChildren(el('li', {}, `line ${line.number}: `, el('code', { dir: 'ltr' }, line.text)));
    this.#hints.hidden = false;
    this.editor.pick(line.number - 1);
  }

  #giveUp() {
    drafts.delete(this.no);
    this.base = this.revision;
    this.#stale.replaceChildren();
    this.editor.text = this.current;
  }

  async #pull() {
    const answer = await ask('POST', `/${this.isPulled ? 'restore' : 'pull'}/${this.no}`, { user: me() });
    say(answer);
    if (answer.ok) await sentence(this.no);
  }

  /** Shows what came in between, beside what was typed. Nothing is written over without a look. */
  async #showStale() {
    const theirs = await ask('GET', `/sentences/${this.no}`), first = await ask('GET', `/sentences/${this.no}/${this.base}`);
    const failed = [theirs, first].find(answer => !answer.ok);
    if (failed) return say(failed);
    const mine = this.editor.text, both = merged(first.text, mine, theirs.text);
    Object.assign(this, { revision: theirs.revision, current: theirs.text });
    const who = (await writers(this.no, this.home?.no))[this.revision - 1]?.who;
    this.#stale.replaceChildren(
      el('h2', {}, `Revision ${this.revision} came in between`, who ? [', by ', own(who)] : ''),
      el('p', {}, `You edited revision ${this.base}. Nothing was saved; your text is still in the editor. `,
        both === null ? 'You both changed the same field, or one of you changed the rows, so choose one text.'
          : 'The two changes touch different fields.'),
      besides(theirs.text, mine, `revision ${this.revision}, the current one`, `yours, on revision ${this.base}`),
      el('div', { class: 'tools' },
        both === null ? '' : this.#choice('both', 'Put both changes together', both),
        this.#choice('keep', `Go on with mine, over revision ${this.revision}`, mine),
        this.#choice('take', `Take revision ${this.revision} into the editor`, theirs.text)));
    this.tell();
    this.#stale.scrollIntoView({ block: 'nearest' });
  }

  /** A button that goes on with a text, on the current revision. */
  #choice(id, label, text) {
    return button({ id, onclick: () => {
      this.base = this.revision;
      this.#stale.replaceChildren();
      this.editor.text = text;
    } }, label);
  }

  async #showHistory() {
    const wrote = await writers(this.no, this.home?.no), box = el('div');
    const items = Array.from({ length: this.revision }, (_, i) => el('li', {},
      button({ onclick: () => this.#showRevision(i + 1, box) }, `revision ${i + 1}`),
      ' by ', own(wrote[i]?.who ?? '?'), `, move ${wrote[i]?.no ?? '?'}`));
    this.#history.replaceChildren(el('h2', {}, 'Revisions'), el('ol', { class: 'revisions' }, items), box);
    await this.#showRevision(this.revision, box);
    this.#history.scrollIntoView({ block: 'nearest' });     // (it is below the table, which may have a thousand rows)
  }

  /** Shows a revision beside the one before it. */
  async #showRevision(revision, box) {
    const it = await ask('GET', `/sentences/${this.no}/${revision}`);
    const before = revision > 1 ? await ask('GET', `/sentences/${this.no}/${revision - 1}`) : null;
    const failed = [it, before].find(answer => answer && !answer.ok);
    if (failed) return say(failed);
    box.replaceChildren(
      before ? besides(before.text, it.text, `revision ${revision - 1}`, `revision ${revision}`) : el('pre', { dir: 'ltr', tabindex: 0 }, it.text),
      button({ onclick: () => { this.editor.text = it.text; } }, `Put revision ${revision} into the editor`));
  }
}

// The sentence that is shown, or null.
let shown = null;

async function sentence(no, hit = null) {
  const mine = ++turn, asked = ask('GET', `/sentences/${no}`);
  const line = asked.then(({ ok, text }) => (ok ? table(`/page/sent-id/${encodeURIComponent(comment(text, 'sent_id'))}`) : null));
  const [answer, found, list] = await Promise.all([asked, line, batches()]);
  if (mine !== turn) return;
  shownMove = null;
  if (!answer.ok) return put('Sentence', heading(`Sentence ${no}`), failure(answer));
  const home = list.rows.find(row => Number(no) >= Number(row.first) && Number(no) <= lastOf(row));
  shown = new Sentence(no, answer, home, found.rows[0]?.pulled === 'yes', hit);
  shown.show();
}

// ---- moves

const MOVE_COLUMNS = ['no', 'kind', 'batch', 'sentence', 'from', 'to', 'sentences', 'words out', 'words in', 'who'];

function moveRow(move, names) {
  return el('tr', {}, number(move.no), el('td', {}, move.kind), el('td', {}, link(`#/batch/${move.batch}`, names.get(move.batch) ?? move.batch)),
    number(move.sentence === '0' ? '' : link(`#/sentence/${move.sentence}`, move.sentence)), el('td', {}, move.from), el('td', {}, move.to),
    number(plain(move.sentences)), number(plain(move.words_out)), number(plain(move.words_in)), el('td', {}, own(move.who)));
}

/** A choice between all and one of some values, as pairs of a value and its text. */
function oneOf(id, values, chosen) {
  const options = values.map(([value, text]) => el('option', { value, selected: value === chosen }, text));
  return keeping(el('select', { id }, el('option', { value: '' }, 'all'), options));
}

async function moves(onlyBatch) {
  const mine = ++turn, answer = await table('/moves'), list = await batches();
  if (mine !== turn) return;
  if (!answer.ok) return put('Moves', heading('Moves'), failure(answer));
  const rows = answer.rows.toReversed(), names = new Map(list.rows.map(row => [row.no, row.name]));
  shownMove = Number(rows[0]?.no ?? 0);
  const users = [...new Set(rows.map(move => move.who))].sort().map(who => [who, who]);
  const byBatch = oneOf('by-batch', [...names], onlyBatch), byUser = oneOf('by-user', users, '');
  const body = el('tbody'), count = el('span', { id: 'moves-count', class: 'quiet' });
  const fill = () => {
    const some = rows.filter(move => ['', move.batch].includes(byBatch.value) && ['', move.who].includes(byUser.value));
    count.textContent = `${plain(some.length)} of ${plain(rows.length)}, the last first`;
    body.replaceChildren();
    pages(body, some, 500, move => moveRow(move, names), 10);
  };
  for (const select of [byBatch, byUser]) select.addEventListener('change', fill);
  fill();
  put('Moves', heading('Moves'),
    el('div', { class: 'tools' }, el('label', {}, 'Batch ', byBatch), el('label', {}, 'User ', byUser), count),
    wide(el('table', { class: 'moves' }, heads(MOVE_COLUMNS), body)));
}

// ---- the way between the views

async function open(sentId, words) {
  const answer = await table(`/page/sent-id/${encodeURIComponent(sentId)}`);
  if (answer.ok) location.hash = `#/sentence/${answer.rows[0].no}/${words}`;
  else say(answer);
}

const finder = new Finder(say, open);

function search() {
  turn++;
  shownMove = null;
  put('Search and count', finder.node);
}

/** Marks the link to the view. Batches and sentences are reached from the board. */
function markLink(view) {
  for (const a of document.querySelectorAll('header nav a')) {
    const isHere = a.hash === `#/${view}` || (a.hash === '#/' && ['batch', 'sentence'].includes(view));
    if (isHere) a.setAttribute('aria-current', 'page');
    else a.removeAttribute('aria-current');
  }
}

/** Shows the view that the address names: `#/batch/1`, `#/sentence/7/2-3` with words 2 to 3 marked, `#/moves/1`. */
async function show() {
  const [, view = '', which = '', words = ''] = location.hash.split('/');
  const no = /^[1-9]\d{0,9}$/.test(which) ? which : '', hit = /^(\d+)-(\d+)$/.exec(words)?.slice(1).map(Number);
  main.onkeydown = shown = null;
  markLink(view);
  if (view === 'batch' && no) await batch(no);
  else if (view === 'sentence' && no) await sentence(no, hit);
  else if (view === 'moves') await moves(no);
  else if (view === 'search') search();
  else await board();
}

/** Shows what others did, within some seconds. Nothing moves under a hand that types, holds a button or is asked whether it is sure. */
async function follow() {
  const isBusy = () => shownMove === null || main.matches(':active') || main.querySelector('[data-sure], input:focus');
  if (document.visibilityState !== 'visible' || isBusy()) return;
  const now = await lastMove();
  if (now !== null && !isBusy() && now !== shownMove) await show();
}

function nameChanged() {
  localStorage.setItem('desk-user', me());
  if (shown) shown.tell();
  else if (shownMove !== null) show();
}

addEventListener('hashchange', async () => {
  toldBox.replaceChildren();
  await show();
  main.querySelector('h1')?.focus();
});
addEventListener('beforeunload', event => { if (drafts.size) event.preventDefault(); });
document.getElementById('skip').addEventListener('click', () => main.focus());
document.getElementById('who').addEventListener('submit', event => { event.preventDefault(); nameBox.blur(); });
nameBox.addEventListener('change', nameChanged);
nameBox.value = localStorage.getItem('desk-user') ?? '';
document.getElementById('tags').append(...TAGS.map(value => el('option', { value })));
document.getElementById('relations').append(...RELATIONS.map(value => el('option', { value })));
setInterval(follow, 5000);
show();
"##;
