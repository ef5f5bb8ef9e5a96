//! The file find.js of the page, as `deskview page` serves it.
//!
//! This module is generated: `tools/page --write` writes it from the folder page/. Change the file there, and never here.

/// The file find.js.
pub const FIND_JS: &str = r##"// Search and count over the released text.

import { ask, button, csv, decoder, el, heads, lastMove, number, own, pages, plain, plural, prose, refusal, wide } from './desk.js';
import { runsLeft } from './tree.js';

const EXAMPLES = [
  ['[upos="NOUN"]', 'nouns'],
  ['[upos="ADJ"]+ [upos="NOUN"]', 'adjectives before a noun'],
  ['[lemma="be"] []{0,3} [upos="VERB"]', 'be, up to three words, a verb'],
  ['"dogs?"%c', 'a form, in any case'],
  ['[feats contains "Number=Plur" & !deprel="nsubj.*"]', 'plurals that are no subjects'],
];
// Lines of a block, which is laid out only where it is seen, and lines that are shown at all.
const BLOCK = 100, SHOWN = 20000;
const STEPS = { ArrowDown: 1, ArrowUp: -1, PageDown: 25, PageUp: -25 };

// ---- parts that stand alone

function choice(id, label, values, chosen) {
  return el('label', {}, label, el('select', { id }, values.map(value => el('option', { selected: value === chosen }, value))));
}

/** A button that saves a text as a file. */
function saving(text, name, label) {
  return button({ class: 'save', onclick: () => {
    const link = el('a', { href: URL.createObjectURL(new Blob([text], { type: 'text/plain' })), download: name });
    link.click();
    setTimeout(() => URL.revokeObjectURL(link.href), 1000);
  } }, label);
}

// A line of a search without its texts. To copy it is twice as fast as to make one, and there may be ten thousand.
// page.css gives each text its own direction. A `bdi` would look for it in every line, and not only in those that are seen.
const LINE = el('div', { class: 'line', role: 'listitem', dir: 'ltr' },
  button({ class: 'id', tabindex: -1 }, ''),
  el('span', { class: 'left' }, el('span', {}, '')),
  el('span', { class: 'right' }, el('mark', {}, ''), ' ', el('span', {}, '')));

/** A line of a search. It is mirrored as a whole where its text runs from right to left. */
function keyword([sentId, first, last, left, match, right]) {
  const line = LINE.cloneNode(true), id = line.firstChild, rest = line.lastChild;
  id.firstChild.data = sentId;
  // Whoever goes from line to line hears all of it. Firefox gives screen readers no text of a line that is not laid out.
  id.title = `${sentId}, words ${first} to ${last}: ${left} ${match} ${right}`;
  id.nextSibling.firstChild.firstChild.data = left;
  rest.firstChild.firstChild.data = match;
  rest.lastChild.firstChild.data = right;
  line.setAttribute('data-words', `${first}-${last}`);
  if (runsLeft(left + match + right)) line.dir = 'rtl';
  return line;
}

/** Up and down go from line to line. One line is in the way of the Tab key, and not ten thousand. */
function moveInLines(event) {
  const all = [...event.currentTarget.querySelectorAll('.id')], by = STEPS[event.key];
  const to = all[Math.max(0, Math.min(all.length - 1, all.indexOf(event.target) + by))];
  if (!by || !to) return;
  event.preventDefault();
  event.target.tabIndex = -1;
  to.tabIndex = 0;
  to.focus();
}

/** The lines of a search as they come, and the number of hits that its last line says. */
class Lines {
  #rest = '';
  #block;
  count = 0;
  hits = null;

  constructor(list) {
    this.list = list;
  }

  add(piece) {
    const lines = (this.#rest + piece).split('\n');
    this.#rest = lines.pop();           // (a line counts once its line feed is there)
    lines.forEach(line => this.#take(line));
  }

  /** Whether all lines came: the last one tells how many there are. */
  get isWhole() {
    return this.hits === this.count;
  }

  #take(line) {
    const fields = line.split('\t');
    if (fields.length === 6) this.#show(fields);
    else this.hits = Number(/^hits (\d+)$/.exec(line)?.[1] ?? NaN);
  }

  #show(fields) {
    if (this.count++ >= SHOWN) return;
    if (this.count % BLOCK === 1) this.list.append(this.#block = el('div', { class: 'block' }));
    const line = keyword(fields);
    if (this.count === 1) line.firstChild.tabIndex = 0;
    this.#block.append(line);
  }
}

/** Why there may be no hits. */
const onlyReleased = hits => (hits ? '' : el('p', { class: 'quiet' }, 'Only batches in the state released are searched.'));

function countRow({ key, count }, most, sum) {
  const bar = el('div', { class: 'bar' });
  bar.style.width = `${100 * Number(count) / most}%`;          // (a style attribute would be refused by the policy)
  return el('tr', {}, el('td', {}, own(key)), number(plain(count)), number(`${(100 * Number(count) / sum).toFixed(1)} %`),
    el('td', { class: 'bars', 'aria-hidden': 'true' }, bar));
}

// ---- the view

/** The view. It is made once, so that what was found is still there on the way back from a tree. */
export class Finder {
  #say;
  #open;
  #running = null;                      // what stops the search or the count that goes on
  #query = el('textarea', { id: 'query', rows: 2, spellcheck: 'false', dir: 'auto', 'aria-label': 'Query', 'aria-describedby': 'fault' });
  #context = el('input', { id: 'context', type: 'number', min: 0, max: 20, value: 5 });
  #fault = el('p', { id: 'fault', class: 'fault', role: 'alert' });
  #stop = button({ id: 'stop', hidden: true, onclick: () => this.#running.abort() }, 'Stop');
  #found = el('section', { id: 'found', 'aria-label': 'What was found' });

  /** `say` shows a message, `open` shows the sentence with a sent_id, with some words marked. */
  constructor(say, open) {
    this.#say = say;
    this.#open = open;
    this.node = el('section', {}, el('h1', { tabindex: -1 }, 'Search and count'), this.#form(), this.#found);
    this.#query.addEventListener('keydown', event => {
      if (event.key !== 'Enter' || event.shiftKey || event.isComposing) return;
      event.preventDefault();
      this.#search();
    });
  }

  #form() {
    const example = ([text, what]) => el('li', {},
      button({ class: 'code', onclick: () => { this.#query.value = text; this.#query.focus(); } }, text), ' ', what);
    return el('form', { id: 'finder', onsubmit: event => { event.preventDefault(); this.#search(); } },
      this.#query, this.#fault,
      el('div', { class: 'tools' },
        choice('strategy', 'Strategy', ['longest', 'shortest', 'every'], 'longest'),
        el('label', {}, 'Words on each side', this.#context),
        el('button', { id: 'search', class: 'main' }, 'Search'),
        el('span', { class: 'rule' }),
        choice('attribute', 'Count by', ['lemma', 'word', 'upos', 'xpos', 'feats', 'deprel'], 'lemma'),
        button({ id: 'count', class: 'main', onclick: () => this.#count() }, 'Count'),
        this.#stop),
      el('details', {}, el('summary', {}, 'Examples'), el('ul', { class: 'examples' }, EXAMPLES.map(example))));
  }

  #value(id) {
    return this.node.querySelector('#' + id).value;
  }

  /**
   * Asks the desk. A question that goes on is stopped before, since the desk answers one at a time. Gives the answer, what
   * was asked, and whether it was stopped; null where a later question has taken its place.
   */
  async #ask(path, what, onPart) {
    this.#running?.abort();
    const running = this.#running = new AbortController(), text = this.#query.value, strategy = this.#value('strategy');
    this.#fault.replaceChildren();
    this.#found.replaceChildren(el('p', { class: 'quiet' }, what));
    this.#stop.hidden = false;
    const before = await lastMove();
    const answer = await ask('POST', path, { body: text, signal: running.signal, onPart });
    const after = running.signal.aborted ? null : await lastMove();
    if (this.#running !== running) return null;
    this.#running = null;
    this.#stop.hidden = true;
    const move = before === after ? before : null;
    return { answer, text, strategy, move, isStopped: running.signal.aborted };
  }

  async #search() {
    const side = /^(1?[0-9]|20)$/.test(this.#context.value) ? this.#context.value : 5;
    const list = el('div', { id: 'lines', class: 'lines', role: 'list', 'aria-label': 'Keyword lines. Up and down move, Enter opens the tree',
      onclick: event => this.#show(event), onkeydown: moveInLines });
    const head = el('p', { id: 'hits', class: 'hits' }), lines = new Lines(list);
    const asked = await this.#ask(`/search/${this.#value('strategy')}/${side}`, 'Searching ..', piece => {
      if (!lines.count) this.#found.replaceChildren(head, list);
      lines.add(piece);
      head.textContent = `${plain(lines.count)} lines so far ..`;
    });
    if (!asked) return;
    if (!asked.isStopped && !asked.answer.ok && !asked.answer.broken) return this.#refuse(asked);
    if (!lines.count) this.#found.replaceChildren(head, list);
    if (!lines.isWhole) return this.#showCut(head, lines, asked.isStopped);
    head.textContent = `hits ${lines.hits}`;
    head.after(this.#citation(lines.hits, asked), ...this.#remarks(lines, asked.answer.text));
  }

  /** Tells that lines are missing. They are no number to cite. */
  #showCut(head, { count }, isStopped) {
    head.classList.add('fault');
    const lines = plural(count, 'line');
    head.textContent = isStopped ? `Stopped after ${lines}. There may be more.` : `The answer broke off after ${lines}: its last `
      + 'line, with the number of hits, did not come. Do not count these lines; search again.';
  }

  #remarks({ hits }, text) {
    return [
      onlyReleased(hits),
      ...(hits > SHOWN ? [el('p', { class: 'quiet' }, `The first ${plain(SHOWN)} lines are shown; the file has all.`)] : []),
      ...(hits ? [saving(text.slice(0, text.lastIndexOf('hits ')), 'keywords.tsv', 'Lines as TSV')] : []),
    ];
  }

  async #count() {
    const by = this.#value('attribute');
    const asked = await this.#ask(`/count/${this.#value('strategy')}/${by}`, 'Counting ..');
    if (!asked) return;
    const { answer, isStopped } = asked;
    if (isStopped) return this.#showFault('Stopped. The desk counts on, and answers others when it is done.');
    if (answer.broken) return this.#showFault('The answer broke off: count again.');
    if (!answer.ok) return this.#refuse(asked);
    const rows = csv(answer.text), most = Number(rows[0]?.count ?? 1), sum = rows.reduce((all, row) => all + Number(row.count), 0);
    const body = el('tbody');
    this.#found.replaceChildren(
      el('p', { id: 'hits', class: 'hits' }, `hits ${sum}`),
      this.#citation(sum, asked), onlyReleased(sum),
      el('p', {}, `${plural(rows.length, 'key')}, the sum of their counts is ${plain(sum)}. `, saving(answer.text, `count-${by}.csv`, 'CSV'),
        el('span', { class: 'quiet' }, ' In a spreadsheet import it as text: a key may begin with "=".')),
      wide(el('table', { class: 'counts' }, heads([by, 'count', 'share', '']), body)));
    pages(body, rows, 500, row => countRow(row, most, sum), 4);
  }

  #showFault(words) {
    this.#found.replaceChildren(el('p', { id: 'hits', class: 'fault' }, words));
  }

  /** Tells why a query was refused, and puts the cursor where it is at fault. */
  #refuse({ answer, text }) {
    this.#fault.replaceChildren(el('code', {}, answer.line), ' ', ...prose(answer.words));
    this.#found.replaceChildren();
    const told = refusal(answer.line);
    if (told?.what !== '19' || told.values[0] !== '2') return;
    // The byte of a refusal is no index of a string.
    const before = decoder().decode(new TextEncoder().encode(text).subarray(0, Number(told.values[1]))).length;
    this.#query.focus();
    this.#query.setSelectionRange(before, Math.min(text.length, before + 1));
  }

  /** The line by which a number can be cited. There is none where a command came in between. */
  #citation(hits, { text, strategy, move }) {
    if (move === null) return el('p', { class: 'fault' }, 'The desk changed while this was counted: ask again before you cite it.');
    const line = `${plain(hits)} ${hits === 1 ? 'hit' : 'hits'} (${text}, ${strategy}, after move ${move})`;
    return el('p', { class: 'cite' }, el('span', { class: 'quiet' }, 'To cite: '), el('span', { id: 'cite' }, own(line)), ' ',
      button({ onclick: () => this.#copy(line) }, 'Copy'));
  }

  async #copy(line) {
    try {
      await navigator.clipboard.writeText(line);
      this.#say({ ok: true, line: 'copied', words: line });
    } catch {
      this.#say({ ok: false, line: 'not copied', words: 'the browser did not let the page copy; mark the line and copy it yourself' });
    }
  }

  /** Opens the sentence of a line, but not where a text is marked, to be copied. */
  #show(event) {
    const line = event.target.closest('.line'), isMarking = !event.target.closest('.id') && getSelection().toString();
    if (line && !isMarking) this.#open(line.querySelector('.id').textContent, line.dataset.words);
  }
}
"##;
