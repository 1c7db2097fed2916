//! The page's script, from where it draws: of page/page.js, as scripts/page_files.py writes it.

/// The script, from where it draws.
pub(crate) const DRAWING: &str = r##"// ---- The state beside the chart

const chosen = { block: "", client: "" };
const wantsBlock = (block) => chosen.block === "" || block === Number(chosen.block);
const wantsClient = (who) => chosen.client === "" || who === Number(chosen.client);

// A table's cell, marked where it shows other words than before the step.
function cell(words, old) {
  const isChanged = old !== undefined && old !== words;
  return make("td", { class: isChanged && "changed", title: isChanged && "before: " + (old || "nothing") },
    words, isChanged && spoken("changed"));
}
// Bytes in groups of eight, between which a line may break.
const grouped = (bytes) => (bytes.match(/[^]{1,16}/g) || []).join(" ");
const bytesCell = (bytes, old) => cell(grouped(bytes), grouped(old));
const heads = (...words) => words.map((word) => make("td", { class: "whole" }, word));

// A table of what was found. Where that is much: what the step is about, and the first of the rest.
function table(caption, columns, found, isNear, rowOf, empty) {
  if (found.length === 0) return make("div", {}, make("h3", {}, caption), make("p", { class: "quiet" }, empty));
  const rest = found.filter((one) => !isNear(one));
  const more = rest.length - ROWS;
  const shown = more > 0 ? found.filter(isNear).concat(rest.slice(0, ROWS)) : found;
  return make("div", {}, make("table", {}, make("caption", {}, caption),
    make("thead", {}, make("tr", {}, columns.map((word) => make("th", { scope: "col" }, word)))),
    make("tbody", {}, shown.map(rowOf))),
  more > 0 && make("p", { class: "more" }, make("button", { type: "button", onclick: () => byId("block").focus() },
    `${more} more: choose a block`)));
}

// The blocks that the step is about: its own, and those of which it changed a cell.
let near = new Set();
function nearBlocks() {
  const found = new Set();
  if (at < 0) return found;
  found.add(about(at).block);
  for (const place of before[at].keys()) if (blockAt[place]) found.add(blockAt[place].block);
  return found;
}
const isNear = (one) => near.has(one.block);

// Each block that is wanted, with each client that is.
function pairs(holds) {
  const found = [];
  for (const it of blocks.values()) {
    if (!wantsBlock(it.block)) continue;
    for (const who of clientNumbers) if (wantsClient(who) && holds(it, who)) found.push({ block: it.block, it, who });
  }
  return found;
}
const COPIES = ["client", "block", "copy", "clean, dirty", "bytes", "waits for", "home records"];
function clientsTable() {
  const found = pairs((it, who) => {
    const place = it.clients[who];
    return chosen.block !== "" || state[place] !== IDLE.client || textBefore(place) !== IDLE.client;
  });
  const rowOf = ({ it, who }) => {
    const [k, o] = [client(state[it.clients[who]]), client(textBefore(it.clients[who]))];
    return make("tr", { "data-client": who, "data-block": it.block }, heads(`client ${who}`, `b${it.block}`),
      cell(k.perm, o.perm), cell(k.dirty, o.dirty), bytesCell(k.bytes, o.bytes), cell(k.waits, o.waits),
      cell(k.recorded, o.recorded));
  };
  return table("Clients: copies", COPIES, found, isNear, rowOf, "No client has a copy, or waits for one.");
}
// What stands in a row of a script's page alone: the banks and the tickets.
const inScript = (...words) => (isRecord ? [] : words);
const AT_HOME = [...inScript("bank"), "block", "home's copy", "bytes", ...(isRecord ? ["serves"] : []),
  "to or from memory", "memory's bytes"];
function homeTable() {
  const isQuiet = (it) => state[it.home] === IDLE.home && textBefore(it.home) === IDLE.home
    && textBefore(it.memory) === state[it.memory] && (!isRecord || state[it.serves] === IDLE.serves);
  const found = [...blocks.values()].filter((it) => wantsBlock(it.block) && (chosen.block !== "" || !isQuiet(it)));
  const passes = (h) => h.words + (h.data && " " + grouped(h.data));
  const rowOf = (it) => {
    const [h, o] = [home(state[it.home]), home(textBefore(it.home))];
    return make("tr", { "data-home": it.block }, heads(...inScript(String(it.bank)), `b${it.block}`),
      cell(h.dirty, o.dirty), bytesCell(h.bytes, o.bytes),
      isRecord && cell(servedWords(it.serves), servedWords(it.serves, textBefore)), cell(passes(h), passes(o)),
      bytesCell(state[it.memory], textBefore(it.memory)));
  };
  return table("Home and the memory", AT_HOME, found, isNear, rowOf,
    "Home has no copy, and nothing passes to the memory.");
}
// The messages of a channel: those that the step took, and those that wait after it.
function onChannel(place) {
  const [now, old] = [messages(state[place]), messages(textBefore(place))];
  const isIn = (list, m) => list.some((one) => one.serial === m.serial);
  return [...old.filter((m) => !isIn(now, m)).map((m) => ({ m, what: "taken" })),
    ...now.map((m) => ({ m, what: isIn(old, m) ? "" : "sent" }))];
}
function messageRow({ bank, who, channel, m, what, ticket }) {
  const isTaken = what === "taken";
  const told = isTaken ? [" ", news(`taken in this ${WORD}`)] : what && spoken(`sent in this ${WORD}`);
  const other = isRecord ? "home" : "bank " + bank;
  const way = "ACE".includes(channel) ? `client ${who} to ${other}` : `${other} to client ${who}`;
  return make("tr", { [isTaken ? "data-taken" : "data-message"]: ticket,
    class: what && (isTaken ? "changed gone" : "changed") }, heads(channel), make("td", {}, way),
  heads(...inScript(ticket)),
  make("td", {}, `${m.kind} b${m.block}`, told), make("td", {}, grouped(m.bytes)));
}
function flightTable() {
  const found = [];
  for (const [name, place] of channels) {
    const [bank, who, channel] = name.split(".");
    if (!wantsClient(Number(who))) continue;
    for (const { m, what } of onChannel(place)) {
      if (wantsBlock(m.block)) found.push({ bank, who, channel, m, what, ticket: `${name}.${m.serial}` });
    }
  }
  return table("Messages in flight", ["channel", "from, to", ...inScript("ticket"), "message", "bytes"], found,
    (one) => one.what !== "" || near.has(one.m.block), messageRow, "No message is in flight.");
}
// What a register shows: its words before the step are those of the texts before it.
function registerWords(place, r, text) {
  return [r.grow === "evict" ? "eviction" : `client ${r.client} ${r.grow}`, r.victim === null ? "none" : `b${r.victim}`,
    `${r.way} of set ${r.set}`, probedWords(place, r, text), nextWords(r, text)];
}
function registerRow({ bank, place, r, was, isClosed }) {
  const own = heads(String(bank), `b${r.own}`);
  if (isClosed) {
    return make("tr", { "data-closed": r.own, class: "changed gone" }, own,
      make("td", { colspan: 5 }, news("closed in this step")));
  }
  const words = registerWords(place, r);
  const old = was ? registerWords(place, was, textBefore) : [];
  const cells = words.map((word, column) => cell(word, old[column]));
  if (!was) cells[cells.length - 1].append(spoken("opened in this step"));
  return make("tr", { "data-register": r.own, class: !was && "changed" }, own, cells);
}
function registersTable() {
  const found = [];
  registers.forEach((place, bank) => {
    const [now, old] = [openRegisters(state[place]), openRegisters(textBefore(place))];
    const add = (r, was, isClosed) => {
      if (wantsBlock(r.own) || wantsBlock(r.victim)) found.push({ block: r.own, bank, place, r, was, isClosed });
    };
    for (const r of now) add(r, old.find((one) => one.own === r.own), false);
    for (const r of old) if (!now.some((one) => one.own === r.own)) add(r, r, true);
  });
  return table("Miss registers", ["bank", "block", "serves", "victim", "way", "probed", "what it does next"], found,
    (one) => isNear(one) || one.isClosed || one.was !== one.r, registerRow, "No register is open.");
}
function waysTable() {
  const its = chosen.block === "" ? undefined : blocks.get(Number(chosen.block));
  const isIts = (it) => !its || (its.bank === it.bank && setOf(its.block) === it.set);
  const found = sets.filter((it) => isIts(it) && /\d/.test(state[it.place] + textBefore(it.place)));
  const words = (text) => split(text, ",")
    .map((block, way) => `way ${way}: ${block === "-" ? "free" : "b" + block}`).join(", ");
  const rowOf = (it) => make("tr", { "data-set": `${it.bank}.${it.set}` }, heads(String(it.bank), String(it.set)),
    cell(words(state[it.place]), words(textBefore(it.place))));
  return table("Ways", ["bank", "set", "what lies in its ways"], found,
    (it) => textBefore(it.place) !== state[it.place], rowOf, "Every way is free.");
}
function whyNoStep(inUse) {
  if (inUse.size === 0) return "No block is in use: each client may acquire any block.";
  if (chosen.block !== "" || chosen.client !== "") return "None of the block or client that is chosen.";
  return "None of a block in use: only home or the memory can go on there.";
}
function permittedTable() {
  const inUse = chosen.block === "" ? blocksInUse() : new Set([Number(chosen.block)]);
  const tickets = Array.from({ length: g.banks }, (_, bank) => clientNumbers.map((who) => ticketSteps(bank, who)));
  const ofBlock = (it, who) => tickets[it.bank][who].filter((one) => one[2] === it.block);
  const found = pairs((it, who) => inUse.has(it.block) && (maySomething(who, it) || ofBlock(it, who).length > 0));
  return table("Client steps that are permitted now", ["client", "block", "steps"], found, isNear, ({ it, who }) => {
    const steps = clientSteps(who, it).concat(ofBlock(it, who));
    return make("tr", {}, heads(`client ${who}`, `b${it.block}`), make("td", {}, steps.map(([word, step], index) =>
      [index > 0 && ", ", make("code", { "data-step": step, title: step }, word)])));
  }, whyNoStep(inUse));
}

// The first later step of the same words that is not refused.
function laterSuccess(index) {
  const later = data.rows.findIndex((row, place) =>
    place > index && row[0] === data.rows[index][0] && !/^refused/.test(row[1]));
  const link = make("a", { href: `#step=${later}` }, `step ${later}`);
  return later >= 0 && make("p", {}, "The same succeeds in ", link, ".");
}
function refusedBox(number, name) {
  const [rule, ...places] = RULES[name];
  return make("div", { class: "refused", id: "refusal" },
    make("p", {}, make("strong", {}, `Refused: ${number} ${name}`), ". Nothing changed; it may be asked again."),
    make("p", { id: "rule" }, rule), make("p", { id: "why" }, `Here ${hereWhy(at, name)}.`), laterSuccess(at),
    make("p", { class: "quiet", id: "places" }, "See ",
      places.map((one, index) => [index > 0 && ", and ", placeOf(one)]), "."));
}
// An entry of a record: what it sent, and at the end the verdict.
function entryBox(mark) {
  const sent = sentBy.has(at) && data.arrows[sentBy.get(at)];
  const heading = `Line ${numberOf(at)}, entry ${data.first + at + 1}: `;
  const message = sent && [sent[6], grouped(sent[7])].join(" ").trim();
  return [make("h2", {}, heading, make("code", {}, rowWords(at, Infinity))), make("p", {}, sentence(at)),
    sent && make("p", {}, "Sent: ", make("code", { id: "answer" }, message), ` to ${sent[3]}.`),
    mark === "not lawful" && make("div", { class: "refused", id: "refusal" }, make("p", {},
      make("strong", {}, "Not lawful"), ": this entry may not come here. The state is that before it."), breach()),
    at === last && make("p", { id: "verdict" }, data.verdict)];
}
function stepBox() {
  if (at < 0) {
    const isReset = !isRecord || data.first === 0;
    return [make("h2", {}, isReset ? `Before the first ${WORD}` : `After entry ${data.first}`),
      make("p", {}, isReset ? "Nobody but the memory holds anything (reset)."
        : `The first ${data.first} entries of the record are lawful, and are not shown.`)];
  }
  const [step, answer, , mark] = data.rows[at];
  if (isRecord) return entryBox(mark);
  const refused = /^refused (\d+) (\w+)$/.exec(mark);
  return [make("h2", {}, `Step ${at}: `, make("code", {}, step)), make("p", {}, sentence(at)),
    make("p", {}, "Answer: ", make("code", { id: "answer" }, answer.replace(/[0-9a-f]{17,}/g, grouped))),
    refused && refusedBox(refused[1], refused[2])];
}

// Brings what changed into view: of what does not fit the first.
function reveal() {
  const tables = byId("tables");
  const marked = [...tables.querySelectorAll(".changed")].map((one) => one.getBoundingClientRect());
  if (marked.length === 0) return;
  const box = tables.getBoundingClientRect();
  const below = marked[marked.length - 1].bottom - box.bottom;
  const move = Math.max(0, below + 8);
  tables.scrollTop += Math.min(move, marked[0].top - box.top - 8);
}
function drawState() {
  near = nearBlocks();
  byId("about").replaceChildren(...stepBox().filter((one) => one));
  byId("tables").replaceChildren(clientsTable(), homeTable(), flightTable(),
    ...(isRecord ? [] : [registersTable(), waysTable()]), permittedTable());
}

// ---- The chart: the rows' names at the left and the lifelines' names above stay in sight

const NAMES = 214, FIRST = 30, GAP = 146, HEAD = 34, ROW = 28, ASIDE = 8, REACH = 6, BESIDE = 14;
const lifelines = clientNumbers.map((who) => "client " + who)
  .concat(Array.from({ length: g.banks }, (_, bank) => "home " + bank), "memory");
const lifelineAt = new Map(lifelines.map((name, place) => [name, FIRST + GAP * place]));
const x = (name) => lifelineAt.get(name);
const width = x("memory") + 70;
const rowsWanted = () => data.rows.map((_, index) => index).filter((index) => {
  const it = about(index);
  const blockIs = chosen.block === "" || it.block === Number(chosen.block);
  return blockIs && (chosen.client === "" || it.client === undefined || it.client === Number(chosen.client));
});
let wanted = rowsWanted();
let shown = [];

// How many of some rows come before a row.
function placeOfRow(rows, row) {
  let [low, high] = [0, rows.length];
  while (low < high) {
    const middle = (low + high) >> 1;
    if (rows[middle] < row) low = middle + 1;
    else high = middle;
  }
  return low;
}
const isShown = (row) => shown[placeOfRow(shown, row)] === row;
// The middle of a row, or of the place where it would stand.
const y = (row) => ROW * placeOfRow(shown, row) + ROW / 2;
function rowLabel(index) {
  const [words, answer, , mark] = data.rows[index];
  return `${numberOf(index)} ${[words, mark || answer].filter((one) => one).join(", ")}`;
}
// The words of a row, without the message that an entry shows, as far as there is room.
const SHORT = ["load", "store", "acquire", "release", "probe"];
function rowWords(index, room = 25) {
  const { verb, words } = about(index);
  const text = isRecord ? words.slice(0, SHORT.includes(verb) ? 4 : OF_BLOCK.includes(verb) ? 2 : 3).join(" ")
    : data.rows[index][0];
  return text.length > room ? text.slice(0, room - 1) + "…" : text;
}
const stripe = (place, index, size) => svg("rect", { class: place % 2 ? "plain" : "stripe", "data-row": index, x: 1,
  y: ROW * place, width: size - 2, height: ROW });
function drawName(index, place) {
  const top = y(index) + 4;
  return svg("g", { class: "row", id: "row-" + index, role: "option", "aria-label": rowLabel(index),
    "aria-selected": "false", "data-row": index }, svg("title", {}, data.rows[index][0]), stripe(place, index, NAMES),
  svg("text", { class: "quiet end", x: 38, y: top }, String(numberOf(index))),
  svg("text", { x: 46, y: top }, rowWords(index)));
}
function shapeOf(word, left, top) {
  switch (word) {
    case "": return svg("circle", { class: "dot", cx: left, cy: top, r: 2 });
    case "load":
    case "store": return svg("circle", { class: word, cx: left, cy: top, r: 4 });
    case "not":
    case "refused": return svg("path", { class: "cross", d: `M${left} ${top}m-4 -4l8 8m0 -8l-8 8` });
    default: return svg("path", { class: "dot", d: `M${left} ${top}m-4 -4h8v8h-8z` });
  }
}
function drawMark(index) {
  const [, , name, mark] = data.rows[index];
  const [left, top] = [x(name), y(index)];
  const word = mark.split(" ")[0];
  const isRight = name === "memory";
  return svg("g", { id: "mark-" + index }, shapeOf(word, left, top),
    mark && svg("text", { class: "halo" + (["refused", "not"].includes(word) ? " bad" : "") + (isRight ? " end" : ""),
      x: left + (isRight ? -BESIDE : BESIDE), y: top + 4 }, mark.replace("refused ", "")));
}
function drawArrow(index) {
  const [sent, taken, from, to, channel, block, kind, bytes] = data.arrows[index];
  const side = x(from) < x(to) ? 1 : -1;
  const isOpen = taken < 0;
  const [left, right] = [x(from) + side * REACH, x(to) - side * REACH * (isOpen ? 2 : 1)];
  const start = sent < shown[0] ? 0 : y(sent) + ASIDE;
  const isBelow = taken > shown[shown.length - 1];
  const finish = isOpen ? start + ROW / 2 : isBelow ? ROW * shown.length : y(taken) - ASIDE;
  const line = `M${left} ${start}L${right} ${finish}`;
  const words = `${kind} b${block}` + (bytes && " " + (bytes.length > 8 ? bytes.slice(0, 8) + "…" : bytes));
  const ends = `sent in ${WORD} ${numberOf(sent)}, ` + (isOpen ? "never taken" : `taken in ${WORD} ${numberOf(taken)}`);
  return svg("g", { class: "message", "data-arrow": index, onclick: () => go(at === sent && !isOpen ? taken : sent) },
    svg("title", {}, `${kind} b${block} ${bytes}: ${ends}`), svg("path", { class: "hit", d: line }),
    svg("path", { class: `arrow ${channel}` + (isOpen ? " open" : ""), d: line,
      "marker-end": !isOpen && `url(#head${channel})` }),
    isOpen && svg("circle", { class: "arrow " + channel, cx: x(to) - side * REACH, cy: finish, r: 3 }),
    sent >= shown[0] && svg("text", { class: `halo t${channel}` + (side < 0 ? " end" : ""),
      x: x(from) + side * BESIDE, y: y(sent) + 4 }, words));
}
// The messages that a row of the page sent or took.
function arrowsShown() {
  const found = new Set();
  for (const row of shown) for (const by of [sentBy, takenBy]) if (by.has(row)) found.add(by.get(row));
  return [...found].sort((one, two) => one - two);
}

// From which row to which each client has a permission to a block, as its cell tells.
function bandsOf(block) {
  const found = [];
  const first = (who) => client(data.start[blocks.get(block).clients[who]]).perm;
  const open = clientNumbers.map((who) => ({ who, perm: first(who), since: 0 }));
  const change = (who, perm, row) => {
    if (perm === open[who].perm) return;
    found.push({ ...open[who], until: row });
    open[who] = { who, perm, since: row };
  };
  data.changes.forEach((changes, row) => {
    for (let i = 0; i < changes.length; i += 2) {
      const it = blockAt[changes[i]];
      const who = clientOf[changes[i]];
      if (it && it.block === block && who !== undefined) change(who, client(changes[i + 1]).perm, row);
    }
  });
  for (const band of open) found.push({ ...band, until: last + 1 });
  return found.filter((band) => band.perm !== "None");
}
function drawBands() {
  const block = chosen.block === "" ? (data.arrows.length ? data.arrows[0][5] : undefined) : Number(chosen.block);
  if (!blocks.has(block)) return [];
  const edge = (row) => Math.max(0, Math.min(ROW * shown.length, y(row)));
  return bandsOf(block).filter(({ since, until }) => edge(until) > edge(since)).map(({ who, perm, since, until }) =>
    svg("rect", { class: perm, "data-band": who, x: x("client " + who) - 5, y: edge(since), width: 10,
      height: edge(until) - edge(since) }, svg("title", {}, `client ${who} has block ${block} at ${perm}`)));
}
const marker = (channel) => svg("marker", { id: "head" + channel, viewBox: "0 0 8 8", refX: 8, refY: 4, markerWidth: 7,
  markerHeight: 7, markerUnits: "userSpaceOnUse", orient: "auto" },
svg("path", { class: "t" + channel, style: `fill: var(--${channel})`, d: "M0 0L8 4L0 8z" }));
// One of the four parts of the chart. What the picture shows is told by the names of its rows.
function sheet(name, wide, high, ...children) {
  const role = name === "names" ? { role: "presentation" } : { "aria-hidden": "true" };
  return svg("svg", { class: name, width: wide, height: high, viewBox: `0 0 ${wide} ${high}`, ...role }, ...children);
}
let page = -1;
function drawChart() {
  shown = wanted.slice(page * PAGE, (page + 1) * PAGE);
  const height = ROW * shown.length;
  const headings = lifelines.map((name) => svg("text", { class: "head", x: x(name), y: HEAD - 12 }, name));
  byId("rows").replaceChildren(make("div", { class: "sheets", role: "presentation" }, sheet("corner", NAMES, HEAD),
    sheet("heads", width, HEAD, headings), sheet("names", NAMES, height, shown.map(drawName)),
    sheet("lines", width, height, svg("defs", {}, CHANNELS.map(marker)),
      shown.map((index, place) => stripe(place, index, width)),
      lifelines.map((name) => svg("path", { class: "life", d: `M${x(name)} 0V${height}` })), drawBands(),
      arrowsShown().map(drawArrow), shown.map(drawMark))));
  const pages = Math.max(1, Math.ceil(wanted.length / PAGE));
  byId("pages").hidden = pages < 2;
  byId("pageName").textContent = `page ${page + 1} of ${pages}`;
}
function markRow() {
  for (const row of document.querySelectorAll(".row[aria-selected=true]")) row.setAttribute("aria-selected", "false");
  for (const one of document.querySelectorAll("rect.here")) one.classList.remove("here");
  for (const one of document.querySelectorAll(".message")) {
    const [sent, taken] = data.arrows[Number(one.dataset.arrow)];
    one.classList.toggle("flies", sent <= at && (taken < 0 || at < taken));
  }
  const row = byId("row-" + at);
  const rows = byId("rows");
  if (!row) return rows.removeAttribute("aria-activedescendant");
  row.setAttribute("aria-selected", "true");
  rows.setAttribute("aria-activedescendant", row.id);
  for (const one of document.querySelectorAll(`rect[data-row="${at}"]`)) one.classList.add("here");
  // The row, and the lifeline on which it acts.
  return byId("mark-" + at).scrollIntoView({ block: "nearest", inline: "nearest" });
}

// ---- Going to a step

function go(step) {
  walk(Math.max(-1, Math.min(last, step)));
  const place = Math.min(placeOfRow(wanted, at), wanted.length - 1);
  const wants = Math.max(0, Math.floor(place / PAGE));
  if (wants !== page) {
    page = wants;
    drawChart();
  }
  drawState();
  markRow();
  reveal();
  byId("step").value = at < 0 ? "" : String(numberOf(at));
  byId("back").disabled = byId("first").disabled = at < 0;
  byId("next").disabled = byId("end").disabled = at >= (wanted.length ? wanted[wanted.length - 1] : -1);
  byId("told").textContent = at < 0 ? `Before the first ${WORD}` : `${NAME} ${rowLabel(at)}. ${changedWords()}`;
  history.replaceState(null, "", `#${WORD}=${at < 0 ? "start" : numberOf(at)}`);
}
// Goes on by some of the steps that are wanted, or back; at an end it stays among them.
function move(by) {
  const here = placeOfRow(wanted, at + (by > 0 ? 1 : 0));
  const place = by > 0 ? Math.min(here + by - 1, wanted.length - 1) : here + by;
  if (wanted.length > 0) go(place < 0 ? -1 : Math.max(wanted[place], by > 0 ? at : -1));
}
const toEnd = () => wanted.length > 0 && go(wanted[wanted.length - 1]);
function choose(what, value) {
  chosen[what] = value;
  wanted = rowsWanted();
  page = -1;
  go(at);
}
// A block's number was typed: one that the page has not is not chosen.
function chooseTyped(field) {
  const isThere = field.value === "" || blocks.has(Number(field.value));
  field.setCustomValidity(isThere ? "" : `No step names block ${field.value}.`);
  if (isThere) choose("block", field.value);
  else field.reportValidity();
}
function stepAsked() {
  const asked = /(?:step|line)=(\d+)/.exec(location.hash);
  return asked ? indexOf(Number(asked[1])) : -1;
}
const KEYS = { ArrowRight: () => move(1), ArrowDown: () => move(1), ArrowLeft: () => move(-1), ArrowUp: () => move(-1),
  Home: () => go(-1), End: toEnd, PageDown: () => move(20), PageUp: () => move(-20) };

// What a reader who is new to the protocol needs.
const READING = [
  isRecord ? "A row is an entry of the record, with the number of its line: click it, or use the arrow keys. The state "
    + "beside it is that after the entry, as tlcheck judges it."
    : "A row is a step: click it, or use the arrow keys. The state beside it is that after the step.",
  "An arrow is a message, from the row that sent it to the row that took it; thick while it is in flight, dashed if "
    + "never taken.",
  "Home is the cache that all clients share. A client asks it for a copy of a block (Acquire, channel A), home gives "
    + "it (Grant, D), and the client acknowledges that (GrantAck, E).",
  "Where another client's copy is in the way, home asks for it (Probe, B), and that client gives it back (ProbeAck, "
    + "C). A client may also give a copy back unasked (Release, C); home answers that (ReleaseAck, D). Home asks the "
    + "memory by Get and PutFullData.",
  "A copy of a block is at None, Branch (may be read) or Tip (may be written). A band on a client is its copy of the "
    + "block that is chosen, or of the first message's.",
  "Marks: a filled circle is a store, an open one a load, a cross what is refused, a square a drop or an eviction. b0 "
    + "is block 0" + (isRecord ? "." : "; the ticket 0.1.C.3 is bank 0, client 1, channel C, its message 3."),
];

// A control's name begins with the words that it shows, and goes on with what they leave out.
function button(id, shows, more, onclick) {
  const name = `${shows.replace(/[◀▶]/g, "").trim()}: ${more}`;
  return make("button", { id, type: "button", title: more, "aria-label": name, onclick }, shows);
}
function picker(id, values, word) {
  return make("label", {}, id + " ", make("select", { id, onchange: (event) => choose(id, event.target.value) },
    make("option", { value: "" }, "all"), values.map((value) => make("option", { value }, word + value))));
}
function blockField() {
  const numbers = [...blocks.keys()];
  if (numbers.length <= LISTED) return picker("block", numbers, "b");
  return make("label", {}, "block ", make("input", { id: "block", type: "number", min: 0, placeholder: "all",
    onchange: (event) => chooseTyped(event.target) }));
}
// Enter leaves a field for the chart, so that the arrow keys go on from there.
function leave(event) {
  event.preventDefault();
  event.target.dispatchEvent(new Event("change"));
  if (event.target.checkValidity()) byId("rows").focus({ preventScroll: true });
}
function keyDown(event) {
  const isField = ["INPUT", "SELECT"].includes(event.target.tagName);
  if (event.key === "Enter" && event.target.tagName === "INPUT") return leave(event);
  // Beside the chart these keys scroll.
  const scrolls = event.target.closest("#state") && !["ArrowLeft", "ArrowRight"].includes(event.key);
  if (isField || scrolls || event.ctrlKey || event.altKey || event.metaKey || !KEYS[event.key]) return undefined;
  event.preventDefault();
  return KEYS[event.key]();
}
function bar() {
  const turn = (by) => () => go(wanted[(page + by) * PAGE] ?? at);
  const most = last < 0 ? 0 : numberOf(last);
  return make("div", { class: "bar", role: "group", "aria-label": "Steps" },
    button("first", "start", `before the first ${WORD} (Home)`, () => go(-1)),
    button("back", "◀ back", `one ${WORD} (arrow left)`, () => move(-1)),
    make("label", {}, WORD + " ", make("input", { id: "step", type: "number", min: 0, max: most,
      onchange: (event) => go(event.target.value === "" ? -1 : indexOf(Number(event.target.value))) }), ` of ${most}`),
    button("next", "next ▶", `one ${WORD} (arrow right)`, () => move(1)),
    button("end", "end", `the last ${WORD} (End)`, toEnd), blockField(), picker("client", clientNumbers, ""),
    make("span", { id: "pages", class: "bar" }, button("pageBack", "◀ rows", "the page before", turn(-1)),
      make("span", { id: "pageName" }), button("pageNext", "rows ▶", "the next page", turn(1))));
}
function build() {
  const items = READING.map((words) => make("li", {}, words));
  document.body.append(
    make("header", {}, make("h1", {}, data.title), bar(),
      make("p", { id: "told", class: "sr", "aria-live": "polite" })),
    make("main", {}, make("section", { id: "chart", "aria-label": "Sequence chart" },
      make("details", {}, make("summary", {}, "How to read this page"), make("ul", {}, items)),
      make("div", { id: "rows", role: "listbox", tabindex: 0, "aria-label": "Steps: arrow keys go forward and back" })),
    make("section", { id: "state", "aria-label": "State after the step" }, make("div", { id: "about" }),
      make("div", { id: "tables", tabindex: 0, role: "group", "aria-label": "What each part shows after the step" }))));
  byId("rows").addEventListener("click", (event) => {
    const row = event.target.closest("[data-row]");
    if (row) go(Number(row.dataset.row));
  });
  const header = document.querySelector("header");
  const fit = () => document.documentElement.style.setProperty("--top", header.offsetHeight + "px");
  addEventListener("resize", fit);
  addEventListener("hashchange", () => go(stepAsked()));
  document.addEventListener("keydown", keyDown);
  fit();
  go(stepAsked());
}
build();
})();
"##;
