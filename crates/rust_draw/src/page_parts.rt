//! The style and the script of the page of a tree.

use std::io;
use std::io::Write;

static STYLE: &str = "<style>
* { box-sizing: border-box }
body { margin: 0; font: 13px/20px ui-monospace, monospace; background: #fff; color: #1f2328; tab-size: 4 }
#source { margin: 0; padding: 1em }
main { display: flex; height: 100vh }
main[hidden] { display: none }
section { flex: 1; display: flex; flex-direction: column; min-width: 0 }
section + section { border-left: 1px solid #d0d7de }
header { padding: 4px 8px; border-bottom: 1px solid #d0d7de; white-space: nowrap; overflow: hidden; height: 36px }
header * { font: inherit }
.pane { flex: 1; overflow: auto; position: relative }
.seen { position: absolute; left: 0; min-width: 100% }
.seen div { height: 20px; white-space: pre; padding-right: 1em }
#text i { display: inline-block; width: 5em; padding-right: 1em; text-align: right; color: #6e7781; font-style: normal; user-select: none }
#tree div { cursor: default }
#tree a { color: inherit }
#tree i { color: #6e7781; font-style: normal }
#tree b { color: #0a6b2d; font-weight: normal }
.error, .bad, .gap { color: #cf222e }
.bad { text-decoration: underline wavy }
.gap { border-left: 2px solid #cf222e; color: inherit }
.c { color: #6a737d; font-style: italic } .k { color: #cf222e } .s { color: #0a6b2d } .n, .d { color: #0550ae }
.l, .t { color: #953800 } .f, .m { color: #8250df } .m { font-weight: bold } .a { color: #57606a }
.p { color: #1b7c83 } .e { color: #fff; background: #cf222e }
.on { background: #fff3b0 }
@media (prefers-color-scheme: dark) {
body { background: #0d1117; color: #e6edf3 } section, header { border-color: #30363d } #tree b { color: #7ee787 }
.c { color: #8b949e } .k { color: #ff7b72 } .s { color: #7ee787 } .n, .d { color: #79c0ff } .l, .t { color: #ffa657 }
.f, .m { color: #d2a8ff } .p { color: #56d4dd } .a { color: #8b949e } .error, .bad { color: #ff7b72 } .gap { border-color: #ff7b72 }
.on { background: #5a4a00 }
}
</style>
</head>
<body>
";

// The rows of the tree, from the list, and the lines of the text.
static SCRIPT_ROWS: &str = "<main hidden>
<section><div class=\"pane\" id=\"text\"></div></section>
<section><header>
<input id=\"find\" placeholder=\"kind or text, then Enter\">
<button id=\"fold\">fold all</button>
<button id=\"unfold\">unfold all</button>
<label><input type=\"checkbox\" id=\"trivia\" checked> white space and comments</label>
</header><div class=\"pane\" id=\"tree\"></div></section>
</main>
<script>
'use strict';
const at = id => document.getElementById(id);
const source = at('source').textContent, begin = +at('source').dataset.start;
const names = [], kinds = [], from = [], to = [], first = [], end = [], depth = [], behind = [], above = [], roles = [], hidden = [];
const tokens = [], open = [];
let unit = 0, byte = begin;
for (const [all, minus, kind, node, units, bytes, role] of
     at('rows').textContent.matchAll(/(-?)([A-Z]\\w*(?:\\(\\d+\\))?|\\d+)(?:(\\[)|=(\\d+)(?:\\/(\\d+))?([a-z]?))|\\]/g)) {
  if (all === ']') {
    const row = open.pop();
    to[row] = unit; end[row] = byte; behind[row] = kinds.length;
    continue;
  }
  const row = kinds.length;
  if (!/^\\d/.test(kind)) names.push(kind);
  kinds.push(/^\\d/.test(kind) ? names[+kind] : kind);
  hidden.push(minus === '-'); depth.push(open.length); above.push(open.length ? open[open.length - 1] : -1);
  from.push(unit); first.push(byte); roles.push(role);
  if (node) { open.push(row); to.push(0); end.push(0); behind.push(0); continue; }
  unit += +units; byte += +(bytes || units);
  to.push(unit); end.push(byte); behind.push(row + 1); tokens.push(row);
}
// A long line is several: a browser takes long for one with very many parts.
const lines = [], LONG = 1000;
for (let start = 0, number = 1; start <= source.length; number += 1) {
  let stop = source.indexOf('\\n', start);
  if (stop < 0) stop = source.length;
  for (let part = start; part === start || part < stop; part += LONG) lines.push([part, Math.min(stop, part + LONG), part === start ? number : '']);
  start = stop + 1;
}
// The first of n things that a test holds for.
const lowest = (n, test) => {
  let low = 0, high = n;
  while (low < high) { const middle = (low + high) >> 1; if (test(middle)) high = middle; else low = middle + 1; }
  return low;
};
const tokenAt = offset => lowest(tokens.length, n => to[tokens[n]] > offset);
const errors = [], marks = new Map();
for (const item of at('errors').children) {
  const [, message, ranges] = /^([^]*):((?: \\d+-\\d+)*)$/.exec(item.textContent);
  for (const [, start, stop] of ranges.matchAll(/(\\d+)-(\\d+)/g)) {
    errors.push(`error ${start}..${stop}: ${message}`);
    if (+start < begin || +start > byte || !tokens.length) continue;
    let n = Math.min(lowest(tokens.length, it => end[tokens[it]] > +start), tokens.length - 1);
    const kind = start === stop ? 'gap' : 'bad';
    do { marks.set(tokens[n], [kind, message]); n += 1; } while (n < tokens.length && first[tokens[n]] < +stop);
  }
}
";

// Panes that make the lines that are seen, and what a user does.
static SCRIPT_PANES: &str = "const HIGH = 20, MOST = 8e6;
class Pane {
  constructor(id, draw) {
    this.pane = at(id); this.draw = draw; this.count = 0;
    this.room = this.pane.appendChild(document.createElement('div'));
    this.seen = this.pane.appendChild(document.createElement('div'));
    this.seen.className = 'seen';
    this.pane.addEventListener('scroll', () => this.show());
  }
  get fits() { return this.pane.clientHeight / HIGH; }
  // Browsers limit how high an element is, so where there are very many lines the bar moves by more
  // than one.
  get step() { return Math.max(1, this.count * HIGH / MOST); }
  size(count) { this.count = count; this.room.style.height = `${count * HIGH / this.step}px`; this.show(); }
  show() {
    const start = Math.min(Math.floor(this.pane.scrollTop * this.step / HIGH), Math.max(0, Math.ceil(this.count - this.fits)));
    this.start = start;
    this.seen.style.top = this.step > 1 ? `${this.pane.scrollTop}px` : `${start * HIGH}px`;
    const made = [];
    for (let n = start; n < this.count && n < start + this.fits + 1; n += 1) made.push(this.draw(n));
    this.seen.replaceChildren(...made);
  }
  reach(n) {
    if (n < this.start || n >= this.start + Math.floor(this.fits) - 1) this.pane.scrollTop = Math.max(0, n - this.fits / 2) * HIGH / this.step;
    this.show();
  }
}
const piece = (tag, text, name) => {
  const made = document.createElement(tag);
  made.textContent = text;
  if (name) made.className = name;
  return made;
};
const grammar = at('grammar');
const kindOf = row => {
  if (!grammar) return kinds[row];
  const link = piece('a', kinds[row]);
  link.href = `${grammar.href}#${kinds[row]}`;
  return link;
};
let chosen = -1, shown = [];
const folded = new Set();
const text = new Pane('text', n => {
  const [start, stop, number] = lines[n], line = document.createElement('div');
  line.append(piece('i', number));
  for (let k = tokenAt(start); k < tokens.length && from[tokens[k]] < stop; k += 1) {
    const row = tokens[k], mark = marks.get(row);
    const part = piece('span', source.slice(Math.max(start, from[row]), Math.min(stop, to[row])), roles[row]);
    part.dataset.row = row;
    if (mark) { part.classList.add(mark[0]); part.title = mark[1]; }
    if (chosen >= 0 && from[row] >= from[chosen] && to[row] <= to[chosen]) part.classList.add('on');
    line.append(part);
  }
  return line;
});
const tree = new Pane('tree', n => {
  if (n >= shown.length) return piece('div', errors[n - shown.length], 'error');
  const row = shown[n], line = document.createElement('div'), isToken = behind[row] === row + 1 && roles[row] !== undefined;
  line.dataset.row = row;
  line.style.paddingLeft = `${Math.min(depth[row], 64) + 0.5}em`;
  line.append(isToken ? '  ' : folded.has(row) ? '\\u25b8 ' : '\\u25be ', kindOf(row), piece('i', `@${first[row]}..${end[row]}`));
  if (isToken) line.append(' ', piece('b', JSON.stringify(source.slice(from[row], Math.min(to[row], from[row] + 200)))));
  if (row === chosen) line.classList.add('on');
  return line;
});
const isTrivia = row => kinds[row] === 'WHITESPACE' || kinds[row] === 'COMMENT';
const collect = () => {
  shown = [];
  for (let row = 0; row < kinds.length; row = folded.has(row) ? behind[row] : row + 1)
    if (!hidden[row] && (at('trivia').checked || !isTrivia(row))) shown.push(row);
  tree.size(shown.length + errors.length);
};
const choose = (row, other) => {
  if (row === chosen) return;
  chosen = row;
  if (row >= 0 && other === text) text.reach(lowest(lines.length - 1, n => lines[n + 1][0] > from[row]));
  if (row >= 0 && other === tree) {
    const n = lowest(shown.length, it => shown[it] >= row);
    if (shown[n] === row) tree.reach(n);
  }
  text.show(); tree.show();
};
const rowOf = event => { const found = event.target.closest('[data-row]'); return found ? +found.dataset.row : -1; };
tree.pane.addEventListener('mousemove', event => choose(rowOf(event), text));
text.pane.addEventListener('mousemove', event => choose(rowOf(event), tree));
tree.pane.addEventListener('click', event => {
  const row = event.target.closest('a') ? -1 : rowOf(event);
  if (row < 0 || behind[row] === row + 1) return;
  if (!folded.delete(row)) folded.add(row);
  collect();
});
at('trivia').addEventListener('change', collect);
at('unfold').addEventListener('click', () => { folded.clear(); collect(); });
at('fold').addEventListener('click', () => {
  for (let row = 1; row < kinds.length; row += 1) if (behind[row] > row + 1) folded.add(row);
  collect();
});
at('find').addEventListener('keydown', event => {
  if (event.key !== 'Enter') return;
  const wanted = event.target.value, kind = wanted.toUpperCase();
  for (let n = 1; wanted && n <= kinds.length; n += 1) {
    const row = (chosen + n) % kinds.length;
    if (hidden[row] || !(kinds[row] === kind || (roles[row] !== undefined && source.slice(from[row], to[row]).includes(wanted)))) continue;
    for (let over = above[row]; over >= 0; over = above[over]) folded.delete(over);
    if (isTrivia(row)) at('trivia').checked = true;
    collect();
    choose(row, text);
    tree.reach(lowest(shown.length, it => shown[it] >= row));
    break;
  }
});
addEventListener('resize', () => { text.show(); tree.show(); });
at('source').hidden = true;
document.querySelector('main').hidden = false;
text.size(lines.length);
collect();
</script>
</body>
</html>
";

/// Writes the style, and the end of the head.
pub fn write_style<W: Write>(out: &mut W) -> io::Result<()> {
    out.write_all(STYLE.as_bytes())
}

/// Writes what the script makes the panes in, the script, and the end of the page.
pub fn write_script<W: Write>(out: &mut W) -> io::Result<()> {
    out.write_all(SCRIPT_ROWS.as_bytes())?;
    out.write_all(SCRIPT_PANES.as_bytes())
}
