//! The page's script, up to where it draws: of page/page.js, as scripts/page_files.py writes it.

/// The script, up to where it draws.
pub(crate) const SCRIPT: &str = r##""use strict";
(() => {
// The data: what each cell shows at the start, and which cells show another text after each step. That of a record of
// events has a verdict, and in place of cells the state of each block in lines.
const given = JSON.parse(document.getElementById("data").textContent);
const isRecord = given.verdict !== undefined;
const CHANNELS = ["A", "B", "C", "D", "E"];
const data = isRecord ? { ...given, ...cellsOf(given) } : given;
const g = data.geometry;
const last = data.rows.length - 1;
// A row is a step, with its index; or an entry of a record, with the number of its line.
const [WORD, NAME] = isRecord ? ["line", "Line"] : ["step", "Step"];
const numberOf = (index) => (isRecord ? data.rows[index][4] : index);
const indexOf = (number) => (isRecord ? data.rows.findLastIndex((row) => row[4] <= number) : number);
// How many steps the chart shows at once, and how many rows a table shows beside those that the step is about.
const PAGE = 200;
const ROWS = 30;
// Up to as many blocks are listed for choice; of more the number is typed.
const LISTED = 64;
// A channel has room for as many messages; what a record is of may have more.
const FULL = isRecord ? Infinity : 64;

// ---- Small tools

// An element. Children are nodes, texts or arrays of them; what is false or undefined is left out.
function make(tag, attributes, ...children) {
  const node = tag.startsWith("svg:")
    ? document.createElementNS("http://www.w3.org/2000/svg", tag.slice(4)) : document.createElement(tag);
  for (const [name, value] of Object.entries(attributes || {})) {
    if (name.startsWith("on")) node.addEventListener(name.slice(2), value);
    else if (value === true) node.setAttribute(name, "");
    else if (value !== false && value !== undefined) node.setAttribute(name, value);
  }
  for (const child of children.flat(Infinity)) if (child !== undefined && child !== false) node.append(child);
  return node;
}
const svg = (tag, attributes, ...children) => make("svg:" + tag, attributes, ...children);
const byId = (id) => document.getElementById(id);
const hex = (number) => "0x" + number.toString(16).padStart(8, "0");
const split = (text, mark) => text.split(mark).filter((part) => part !== "");
// Words for screen readers alone, where the eye has a mark; and words for all.
const spoken = (words) => make("span", { class: "sr" }, ` (${words})`);
const news = (words) => make("span", { class: "news" }, words);

// A function of texts, which keeps what it has answered.
function kept(read) {
  const known = new Map();
  return (text) => {
    if (!known.has(text)) {
      if (known.size >= 10000) known.clear();
      known.set(text, read(text));
    }
    return known.get(text);
  };
}

// ---- The states of a record as cells

// The lines of a block's state (docs/RECORD.md, State), in the words of cells.
function partsOf(lines) {
  const parts = { home: "- -", serves: "-", memory: "", clients: new Map() };
  for (const line of lines.split("\n")) {
    const [, is, words] = /^(\w+(?: \d+)?): (.*)$/.exec(line) || ["", "", ""];
    if (is === "memory") parts.memory = words;
    else if (is === "home") Object.assign(parts, homePart(words.split(", ")));
    else if (is.startsWith("client ")) parts.clients.set(Number(is.slice(7)), clientPart(words.split(", ")));
  }
  return parts;
}
function homePart([copy, ...rest]) {
  const letters = { Get: "G", AccessAckData: "A", PutFullData: "P", AccessAck: "K" };
  const [what, bytes] = copy.split(" ");
  const serves = rest.find((words) => words.startsWith("serves client "));
  const passes = rest.find((words) => / the memory /.test(words));
  const [kind, data] = passes ? passes.split(" the memory ")[1].split(" ") : [];
  const line = what === "no" ? "-" : what[0].toUpperCase() + bytes;
  return { home: `${line} ${kind ? letters[kind] + (data || "") : "-"}`, serves: serves ? serves.slice(14) : "-" };
}
function clientPart([copy, ...rest]) {
  const words = copy.split(" ");
  const letter = words[1] === "dirty" ? "D" : words[0][0];
  const bytes = words[0] === "None" ? "" : words[words.length - 1];
  const recorded = rest.find((one) => one.startsWith("recorded "))[9];
  const wait = rest.includes("waits for a Grant") ? "G" : rest.includes("waits for a ReleaseAck") ? "R" : "-";
  const lanes = { A: [], B: [], C: [], D: [], E: [] };
  for (const one of rest.filter((each) => each.startsWith("on "))) {
    const message = one.slice(5).split(" ");
    const data = /Data$/.test(message[0]) ? message.pop() : "";
    lanes[one[3]].push({ kind: message.join(" "), bytes: data });
  }
  return { text: `${letter}${bytes} ${wait} ${recorded}`, lanes };
}

// The cells of a record, at the start and as each entry changes them. The messages of a channel stand in the order in
// which they were sent; of those that were sent before the first entry that is shown, by block.
function cellsOf({ geometry, blocks: numbers, start, changes, rows }) {
  const [cells, texts, places, lanes] = [[], [], new Map(), new Map()];
  const clients = Array.from({ length: geometry.clients }, (_, who) => who);
  const add = (name, text) => {
    places.set(name, cells.length);
    cells.push(name);
    texts.push(text);
  };
  for (const block of numbers) {
    for (const [kind, text] of [["home", "- -"], ["memory", ""], ["serves", "-"]]) add(`0 ${kind} ${block}`, text);
    for (const who of clients) add(`0 client ${who} ${block}`, "N - N");
  }
  for (const who of clients) {
    for (const channel of CHANNELS) {
      add(`0 channel ${who} ${channel}`, "");
      lanes.set(`0 channel ${who} ${channel}`, { sent: 0, waiting: [] });
    }
  }
  // What a block's messages of a channel are now: some at the front are taken, some at the end are new.
  const flow = (name, block, now) => {
    const lane = lanes.get(name);
    const old = lane.waiting.filter((one) => one.block === block);
    if (now.length < old.length) lane.waiting = lane.waiting.filter((one) => one !== old[0]);
    for (const one of now.slice(old.length)) lane.waiting.push({ serial: lane.sent++, block, ...one });
    return lane.waiting.map((one) => `${one.serial},${one.block},${one.kind},${one.bytes};`).join("");
  };
  const put = (found, block, lines) => {
    const parts = partsOf(lines);
    const set = (name, text) => {
      const place = places.get(name);
      if (texts[place] === text) return;
      texts[place] = text;
      found.push(place, text);
    };
    for (const kind of ["home", "memory", "serves"]) set(`0 ${kind} ${block}`, parts[kind]);
    for (const who of clients) {
      const part = parts.clients.get(who);
      set(`0 client ${who} ${block}`, part ? part.text : "N - N");
      for (const channel of CHANNELS) {
        const name = `0 channel ${who} ${channel}`;
        set(name, flow(name, block, part ? part.lanes[channel] : []));
      }
    }
    return found;
  };
  start.forEach((lines, place) => put([], numbers[place], lines));
  const first = texts.slice();
  const all = changes.map((of) => {
    const found = [];
    for (let i = 0; i < of.length; i += 2) put(found, numbers[of[i]], of[i + 1]);
    return found;
  });
  while (all.length < rows.length) all.push([]);
  return { cells, start: first, changes: all };
}

// ---- What the cells show

const PERMISSION = { N: "None", B: "Branch", T: "Tip", D: "Tip" };
const RANK = { None: 0, Branch: 1, Tip: 2 };
const AWAITED = { "-": "nothing", G: "a Grant", R: "a ReleaseAck" };
const OUTWARD = { "-": "nothing", G: "a Get", A: "AccessAckData", P: "PutFullData", K: "AccessAck" };

const client = kept((text) => {
  const [copy, wait, recorded] = text.split(" ");
  const perm = PERMISSION[copy[0]];
  const dirty = perm === "Tip" ? (copy[0] === "D" ? "dirty" : "clean") : perm === "Branch" ? "clean" : "";
  const hasEntry = perm !== "None" || wait !== "-";
  return { perm, dirty, bytes: copy.slice(1), wait, waits: AWAITED[wait], recorded: PERMISSION[recorded], hasEntry };
});
const home = kept((text) => {
  const [line, passes] = text.split(" ");
  return { has: line !== "-", dirty: line === "-" ? "none" : line[0] === "D" ? "dirty" : "clean",
    bytes: line.slice(1), passes: passes[0], words: OUTWARD[passes[0]], data: passes.slice(1) };
});
const messages = kept((text) => split(text, ";").map((one) => {
  const [serial, block, kind, bytes] = one.split(",");
  return { serial: Number(serial), block: Number(block), kind, bytes };
}));
const openRegisters = kept((text) => split(text, ";").map((one) => {
  const [own, set, way, asks, grow, victim, probed, next] = one.split(",");
  return { own: Number(own), set: Number(set), way: Number(way), client: asks, grow,
    victim: grow === "evict" ? Number(own) : victim === "-" ? null : Number(victim),
    probed: split(probed, " ").map(Number), next };
}));

// The places of each block's cells, of each channel's, of each set's, of each bank's registers. Of a place, the block
// that it is of, and the client.
const blocks = new Map();
const channels = new Map();
const sets = [];
const registers = [];
const blockAt = [];
const clientOf = [];
data.cells.forEach((name, place) => {
  const [bank, kind, one, two] = name.split(" ");
  if (kind === "channel") channels.set(bank + "." + one + "." + two, place);
  else if (kind === "set") sets.push({ bank: Number(bank), set: Number(one), place });
  else if (kind === "registers") registers[Number(bank)] = place;
  else {
    const block = Number(kind === "client" ? two : one);
    if (!blocks.has(block)) blocks.set(block, { block, bank: Number(bank), clients: [], busy: 0 });
    const it = blockAt[place] = blocks.get(block);
    if (kind === "client") it.clients[clientOf[place] = Number(one)] = place;
    else it[kind] = place;
  }
});
const clientNumbers = Array.from({ length: g.clients }, (_, number) => number);

// What the cells show now. Of each block it is counted how many of its cells are not at rest, and of each client in
// each bank how many entries its table has.
const state = data.start.slice();
const entries = Array.from({ length: g.banks }, () => clientNumbers.map(() => 0));
const IDLE = { client: "N - N", home: "- -", serves: "-" };
function count(place, by) {
  const it = blockAt[place];
  if (!it || place === it.memory) return;
  if (!Object.values(IDLE).includes(state[place])) it.busy += by;
  if (clientOf[place] !== undefined && client(state[place]).hasEntry) entries[it.bank][clientOf[place]] += by;
}
function put(place, text) {
  count(place, -1);
  state[place] = text;
  count(place, 1);
}
state.forEach((_, place) => count(place, 1));

// Walks to a step: forward by its changes, back by what stood there before.
const before = [];
let at = -1;
function walk(step) {
  for (; at < step; at++) {
    const changes = data.changes[at + 1];
    before[at + 1] = new Map();
    for (let i = 0; i < changes.length; i += 2) {
      before[at + 1].set(changes[i], state[changes[i]]);
      put(changes[i], changes[i + 1]);
    }
  }
  for (; at > step; at--) for (const [place, text] of before[at]) put(place, text);
}
// What stands in a place after the step, and before it.
const textNow = (place) => state[place];
const textBefore = (place) => (at >= 0 && before[at].has(place) ? before[at].get(place) : state[place]);
const clientAt = (who, block) => client(state[blocks.get(block).clients[who]]);
const homeAt = (block, text = textNow) => home(text(blocks.get(block).home));
const lane = (bank, who, channel, text = textNow) => messages(text(channels.get(`${bank}.${who}.${channel}`)));
const registersOf = (bank) => openRegisters(state[registers[bank]]);
const setOf = (block) => Math.floor(block / g.banks) % g.sets;

// The cells that a step changed, in words.
function changedWords() {
  const words = at < 0 ? [] : [...before[at].keys()].map((place) => {
    const [bank, kind, one, two] = data.cells[place].split(" ");
    switch (kind) {
      case "client": return `client ${one} b${two}`;
      case "channel": return `channel ${two} of client ${one}${isRecord ? "" : " in bank " + bank}`;
      case "serves": return `what home serves of b${one}`;
      case "set": return `ways of set ${one} in bank ${bank}`;
      case "registers": return `registers of bank ${bank}`;
      default: return `${kind} b${one}`;
    }
  });
  return words.length ? "Changed: " + words.join("; ") + "." : "Nothing changed.";
}

// ---- Steps

const sentBy = new Map();
const takenBy = new Map();
const arrowOf = new Map();
data.arrows.forEach((arrow, index) => {
  sentBy.set(arrow[0], index);
  if (arrow[1] >= 0) takenBy.set(arrow[1], index);
});
data.rows.forEach((row, index) => {
  const sent = /^sent (\S+)/.exec(row[1]);
  if (sent) arrowOf.set(sent[1], data.arrows[sentBy.get(index)]);
});

// The channel from which a step takes a message, and that on which it sends one.
const TAKES = { answer_probe: "B", take_grant: "D", take_release_ack: "D", accept: "A", take_c: "C",
  take_grant_ack: "E" };
const SENDS = { acquire: "A", release: "C", answer_probe: "C", take_grant: "E", take_c: "D" };

// The events of a record that name a block alone.
const OF_BLOCK = ["get", "serve", "take_data", "drop", "put", "take_put_ack"];

// What a step is about: its block, and its client, bank and channel where it has them.
const known = [];
function about(index) {
  known[index] = known[index] || look(data.rows[index][0].split(" "), index);
  return known[index];
}
function look(words, index) {
  const [verb, one, two] = words;
  if (isRecord && OF_BLOCK.includes(verb)) return { verb, words, block: Number(one) };
  if (isRecord && verb !== "load" && verb !== "store") {
    return { verb, words, client: Number(one), bank: 0, block: Number(two) };
  }
  if (verb === "load" || verb === "store") {
    return { verb, words, client: Number(one), block: Math.floor(Number(two) / g.blockBytes) };
  }
  if (verb === "acquire" || verb === "release") return { verb, words, client: Number(one), block: Number(two) };
  if (TAKES[verb]) {
    const arrow = arrowOf.get(one);
    const [bank, who, channel] = one.split(".");
    return { verb, words, client: Number(who), bank: Number(bank), channel, block: arrow && arrow[5], arrow };
  }
  const to = sentBy.has(index) && /^client (\d+)$/.exec(data.arrows[sentBy.get(index)][3]);
  return { verb, words, client: to ? Number(to[1]) : undefined, block: Number(one) };
}

function entrySentence(it) {
  switch (it.verb) {
    case "load": return `Client ${it.client} reads ${it.words[3]} from its copy of block ${it.block}.`;
    case "answer_probe": return `Client ${it.client} answers home's Probe of block ${it.block}.`;
    case "take_grant": return `Client ${it.client} takes its Grant of block ${it.block}, and acknowledges it.`;
    case "take_release_ack": return `Client ${it.client} takes the answer to its Release of block ${it.block}.`;
    case "accept": return `Home takes client ${it.client}'s Acquire of block ${it.block}, and serves it from here on.`;
    case "probe": return `Home asks client ${it.client} to give block ${it.block} up (ProbeBlock ${it.words[3]}).`;
    case "take_c": return `Home takes what client ${it.client} gave back on channel C of block ${it.block}.`;
    case "grant": return `Home sends client ${it.client} the Grant of block ${it.block}.`;
    case "take_grant_ack": return `Home takes client ${it.client}'s GrantAck of block ${it.block}: the Acquire ends.`;
    case "get": return `Home asks the memory for block ${it.block} (Get).`;
    case "serve": return `The memory answers what home asked about block ${it.block}.`;
    case "take_data": return `Home takes the memory's data of block ${it.block}.`;
    case "drop": return `Home gives up its clean copy of block ${it.block}.`;
    case "put": return `Home writes its dirty copy of block ${it.block} back to the memory (PutFullData).`;
    case "take_put_ack": return `Home takes the memory's acknowledgement for block ${it.block}.`;
    default: return undefined;
  }
}
function sentence(index) {
  const it = about(index);
  const told = isRecord ? entrySentence(it) : undefined;
  if (told) return told;
  const what = it.arrow ? it.arrow[6] + " of block " + it.block : "a message";
  switch (it.verb) {
    case "load": return `Client ${it.client} reads ${it.words[3]} byte(s) of its copy of block ${it.block}.`;
    case "store": return `Client ${it.client} writes ${it.words[3]} into its copy of block ${it.block}.`;
    case "acquire": return `Client ${it.client} asks home for a copy of block ${it.block} that it may `
      + `${it.words[3] === "NtoB" ? "read" : "write"} (AcquireBlock ${it.words[3]}).`;
    case "release": return `Client ${it.client} gives its copy of block ${it.block} up, unasked `
      + `(Release ${it.words[3]}).`;
    case "answer_probe": return `Home has asked client ${it.client} to give its copy up (${what}); the client answers.`;
    case "take_grant": return `Client ${it.client} takes the copy that home sent (${what}), and acknowledges it.`;
    case "take_release_ack": return `Client ${it.client} takes home's answer to its Release (${what}).`;
    case "accept": return `Home begins to serve what client ${it.client} asked for (${what}): a miss register opens.`;
    case "take_c": return `Home takes what client ${it.client} gave back on channel C (${what}).`;
    case "take_grant_ack": return `Home takes client ${it.client}'s GrantAck: the miss register closes.`;
    case "advance": return `The miss register of block ${it.block} does what is next.`;
    case "evict": return `Home begins to send block ${it.block} away.`;
    case "serve_memory": return `The memory serves what home asked about block ${it.block}.`;
    case "take_memory": return `Home takes the memory's answer about block ${it.block}.`;
    default: return "";
  }
}

// ---- Refusals: the rule, its places in the documents, and why it holds here

const EVENTS = ["docs/PROTOCOL.md", "Events, state and runs"];
const RULES_OF_ALL = ["docs/PROTOCOL.md", "Rules"];
const MISSES = ["docs/PROTOCOL.md", "Miss registers (own)"];
const LIMITS = ["docs/FORMAT.md", "Refusals of a step"];
const RULES = {
  NoPermission: ["A load asks for a copy at Branch or Tip, a store for a copy at Tip.", EVENTS],
  Waiting: ["After an Acquire a client sends no further Acquire on that block until the Grant, and no Release of it; "
    + "after a Release it sends no Acquire or further Release on it until the ReleaseAck.", RULES_OF_ALL],
  WrongFrom: ["An Acquire's grow and a Release's prune begin at the permission that the client's copy has.", EVENTS],
  NothingThere: ["A message is taken where one waits: here the channel is empty, or nothing of the kind passes between "
    + "home and the memory.", EVENTS],
  NotHead: ["Each channel between one client and one bank delivers in the order sent: only its first message can be "
    + "taken, by the call for its kind.", ["docs/PROTOCOL.md", "Messages"]],
  ReleasePending: ["After a Release a client sends no ProbeAck on that block until it has taken the ReleaseAck.",
    RULES_OF_ALL],
  NoRegister: ["An accepted Acquire and an eviction need a free miss register, and a block that home lacks needs a way "
    + "of its set that no register holds.", MISSES],
  BlockBusy: ["Home serves one Acquire of a block at a time: the block is an open register's own, or its victim.",
    RULES_OF_ALL, MISSES],
  NotYet: ["A miss register does the first of its eight cases that applies. Here it has to wait, or the block has no "
    + "register; a block that is to be evicted must be at home.", MISSES],
  OutOfRange: ["An event of a client or a block that is not there is not permitted; an access has 1 to 8 bytes in one "
    + "block.", EVENTS],
  WrongBank: ["A bank has the blocks whose number the bank hash leads to it.", ["docs/PROTOCOL.md", "A bank (own)"]],
  CopiesFull: ["The client's table of copies is full, and has no entry of the block. No rule of the protocol: a limit "
    + "of this cache.", LIMITS],
  LinkFull: [`${FULL} messages are on the channel that the step sends on. No rule of the protocol: a limit of this `
    + "cache.", LIMITS],
  Memory: ["The log of the bank could not grow.", LIMITS],
  ClockFull: ["The clocks stand at their end.", LIMITS],
};

// A place in the documents: a link from a page that lies among those of the repository, else its name.
const TOP = (/^(.*\/)crates\/golden\/data\/[^/]*$/.exec(location.href.split("#")[0]) || [])[1];
function placeOf([file, section]) {
  const name = `${file}, ${section.replace(" (own)", "")}`;
  const anchor = section.toLowerCase().replace(/[^a-z ]/g, "").replace(/ /g, "-");
  return TOP === undefined ? name : make("a", { href: `${TOP}${file}#${anchor}` }, name);
}

const NUMBERS = (word, count) => (count === 1 ? `only ${word} 0 is there` : `the ${word}s are 0 to ${count - 1}`);
function outOfRange(it) {
  const found = [];
  if (it.client >= g.clients) found.push(NUMBERS("client", g.clients));
  const length = it.verb === "load" ? Number(it.words[3]) : it.verb === "store" ? it.words[3].length / 2 : 0;
  if (it.block >= g.blocks) found.push(`the memory's blocks are 0 to ${g.blocks - 1}`);
  else if (length > 8) found.push(`the access has ${length} bytes`);
  else if (length && Number(it.words[2]) % g.blockBytes + length > g.blockBytes) {
    found.push(`block ${it.block} ends at ${hex((it.block + 1) * g.blockBytes - 1)}`);
  }
  return found.join(", and ");
}
const serves = (r) => (r.grow === "evict" ? `that evicts b${r.own}`
  : `that serves client ${r.client}'s ${r.grow} of b${r.own}`);
function noRegister(it, bank) {
  const open = registersOf(bank);
  if (open.length >= g.registers) {
    const count = g.registers === 1 ? "the only register" : `each of the ${g.registers} registers`;
    return `${count} of bank ${bank} is open: ${open.map((r) => `one ${serves(r)}`).join(", ")}`;
  }
  const held = open.filter((r) => r.set === setOf(it.block)).map((r) => `way ${r.way} by the register ${serves(r)}`);
  return `home lacks block ${it.block}, and each way of set ${setOf(it.block)} is held: ${held.join(", ")}`;
}
function notHead(it) {
  const takes = TAKES[it.verb];
  if (it.channel !== takes) return `the ticket names channel ${it.channel}, and ${it.verb} takes from ${takes}`;
  const [first] = lane(it.bank, it.client, it.channel);
  return `the first message on the channel is ${it.bank}.${it.client}.${it.channel}.${first.serial}, ${first.kind}`;
}
function linkFull(it, bank) {
  const register = it.verb === "advance" && registersOf(bank).find((r) => r.own === it.block);
  const [what, who] = register ? register.next.split(" ") : ["", it.client];
  const channel = SENDS[it.verb] || { probe: "B", grant: "D" }[what];
  return `${lane(bank, who, channel).length} messages are on channel ${channel} of client ${who} in bank ${bank}`;
}
// Why the step is refused here.
function hereWhy(index, name) {
  const it = about(index);
  const bank = it.bank !== undefined ? it.bank : blocks.has(it.block) ? blocks.get(it.block).bank : 0;
  const k = () => clientAt(it.client, it.block);
  const register = () => registersOf(bank).find((r) => r.own === it.block);
  switch (name) {
    case "NoPermission":
    case "WrongFrom": return `client ${it.client} has block ${it.block} at ${k().perm}`;
    case "Waiting":
    case "ReleasePending": return `client ${it.client} still waits for ${k().waits} of block ${it.block}`;
    case "NothingThere": return it.channel ? `channel ${it.channel} of client ${it.client} in bank ${bank} is empty`
      : `${homeAt(it.block).words} passes between home and the memory`;
    case "NotHead": return notHead(it);
    case "NoRegister": return noRegister(it, bank);
    case "BlockBusy": {
      const busy = register() || registersOf(bank).find((r) => r.victim === it.block);
      return `block ${it.block} is the ${register() ? "own block" : "victim"} of the register ${serves(busy)}`;
    }
    case "NotYet":
      if (it.verb === "evict") return `home does not hold block ${it.block}`;
      return register() ? "it waits: " + waitReason(register()) : `block ${it.block} is no register's own`;
    case "OutOfRange": return outOfRange(it);
    case "WrongBank": return NUMBERS("bank", g.banks);
    case "CopiesFull":
      return `client ${it.client} has ${entries[bank][it.client]} entries in bank ${bank}, of ${g.copies}`;
    case "LinkFull": return linkFull(it, bank);
    default: return "the bank has no more room";
  }
}

// What an entry of a record breaks, as the verdict has it, and why it does here, as far as the state tells.
function breach() {
  const found = /^not lawful: line \d+, entry \d+: (.*) \((.*)\), (docs\/\S+), (.*)$/.exec(data.verdict);
  if (!found) return [make("p", { id: "rule" }, data.verdict)];
  const [, rule, whose, file, section] = found;
  const why = hereBreaks(about(last), rule);
  return [make("p", { id: "rule" }, "It breaks a rule: ", make("strong", {}, rule), ` (${whose}).`),
    why && make("p", { id: "why" }, `Here ${why}.`),
    make("p", { class: "quiet", id: "places" }, "See ", placeOf([file, section]), ".")];
}
function hereBreaks(it, rule) {
  if (!blocks.has(it.block)) return outOfRange(it);
  const waiting = (on, kinds) => clientNumbers.flatMap((who) => on.flatMap((channel) => lane(0, who, channel)
    .filter((m) => m.block === it.block && kinds.test(m.kind))
    .map((m) => `client ${who}'s ${m.kind} is on channel ${channel}`))).join(", and ");
  if (/Probe of the block is unanswered/.test(rule)) return waiting(["B", "C"], /^Probe/);
  if (/Grant of the block is pending/.test(rule)) return waiting(["D", "E"], /^Grant/);
  if (/first of its channel/.test(rule)) {
    return CHANNELS.flatMap((channel) => lane(0, it.client, channel).slice(0, 1)
      .map((m) => `the first message on channel ${channel} is ${m.kind} of block ${m.block}`)).join(", and ");
  }
  if (it.client === undefined || /serves|Acquire of the block/.test(rule)) {
    const has = homeAt(it.block).has ? "has a copy" : "has no copy";
    return `home ${has}, and serves ${servedWords(blocks.get(it.block).serves)}`;
  }
  if (it.client >= g.clients) return outOfRange(it);
  const k = clientAt(it.client, it.block);
  return `client ${it.client} has block ${it.block} at ${k.perm}, waits for ${k.waits}, and home records ${k.recorded} `
    + "of it";
}
const servedWords = (place, text = textNow) => (text(place) === "-" ? "nobody" : "client " + text(place));

// ---- Miss registers

const isProbe = (block) => (m) => m.block === block && /^Probe/.test(m.kind);
function isUnanswered(bank, who, block, text) {
  return lane(bank, who, "B", text).some(isProbe(block)) || lane(bank, who, "C", text).some(isProbe(block));
}
function waitReason(register, text) {
  const bank = blocks.get(register.own).bank;
  const isProbed = (block) => clientNumbers.some((who) => isUnanswered(bank, who, block, text));
  if (register.victim !== null) {
    if (isProbed(register.victim)) return `a Probe of the victim, block ${register.victim}, is unanswered (case 2)`;
    return `the memory has not acknowledged the victim, block ${register.victim} (case 4)`;
  }
  if (!homeAt(register.own, text).has) return "the data of its Get has not come (case 5)";
  if (isProbed(register.own)) return "a Probe of its block is unanswered (case 7)";
  return "the GrantAck has not been taken (case 8)";
}
function nextWords(register, text) {
  const [what, one, two, three] = register.next.split(" ");
  switch (what) {
    case "probe": return `sends client ${one} a Probe ${three} of block ${two} `
      + `(case ${Number(two) === register.victim ? 1 : 6})`;
    case "grant": return `sends client ${one} the Grant (case 8)`;
    case "get": return "sends the memory a Get (case 5)";
    case "put": return `writes block ${one} back by PutFullData (case 3)`;
    case "drop": return `drops its clean copy of block ${one} (case 3)`;
    default: return "waits: " + waitReason(register, text);
  }
}
// The block whose clients a register has probed: the victim with which it opened, else its own. With a victim, nobody
// has its own block, so that it probes none of that block's clients.
function probedBlock(place, register) {
  let opened = register;
  for (let step = at; step >= 0; step--) {
    if (!before[step].has(place)) continue;
    const earlier = openRegisters(before[step].get(place)).find((one) => one.own === register.own);
    if (!earlier) break;
    opened = earlier;
  }
  return opened.victim === null ? opened.own : opened.victim;
}
function probedWords(place, register, text) {
  if (register.probed.length === 0) return "nobody";
  const block = probedBlock(place, register);
  const { bank } = blocks.get(block);
  return register.probed.map((who) =>
    `client ${who} of b${block}, ${isUnanswered(bank, who, block, text) ? "unanswered" : "answered"}`).join("; ");
}

// ---- Which steps the banks would permit now

// The blocks of which anything is under way or held, and the step's.
function blocksInUse() {
  const found = new Set();
  for (const it of blocks.values()) if (it.busy > 0) found.add(it.block);
  for (const place of channels.values()) for (const m of messages(state[place])) found.add(m.block);
  for (const place of registers) {
    for (const r of openRegisters(state[place])) {
      found.add(r.own);
      if (r.victim !== null) found.add(r.victim);
    }
  }
  if (at >= 0 && blocks.has(about(at).block)) found.add(about(at).block);
  return found;
}
const hasRoom = (it, who, k) => (isRecord || k.hasEntry || entries[it.bank][who] < g.copies)
  && lane(it.bank, who, "A").length < FULL;
// Whether a client may do anything about a block, but take a message.
function maySomething(who, it) {
  const k = clientAt(who, it.block);
  return k.perm !== "None" || (k.wait === "-" && hasRoom(it, who, k));
}
function clientSteps(who, it) {
  const k = clientAt(who, it.block);
  const found = [];
  const address = hex(it.block * g.blockBytes);
  if (RANK[k.perm] >= 1) found.push(["load", `load ${who} ${address} 1`]);
  if (RANK[k.perm] >= 2) found.push(["store", `store ${who} ${address} 00`]);
  if (k.wait !== "-") return found;
  if (hasRoom(it, who, k)) {
    const grows = { None: ["NtoB", "NtoT"], Branch: ["BtoT"], Tip: [] }[k.perm];
    for (const grow of grows) found.push(["acquire " + grow, `acquire ${who} ${it.block} ${grow}`]);
  }
  if (lane(it.bank, who, "C").length < FULL) {
    const prunes = { None: [], Branch: ["BtoN"], Tip: ["TtoB", "TtoN"] }[k.perm];
    for (const prune of prunes) found.push(["release " + prune, `release ${who} ${it.block} ${prune}`]);
  }
  return found;
}
// The messages of a bank that a client may take, or answer, with their blocks.
function ticketSteps(bank, who) {
  const found = [];
  const named = (channel, m) => (isRecord ? `${who} ${m.block}` : `${bank}.${who}.${channel}.${m.serial}`);
  const [probe] = lane(bank, who, "B");
  if (probe && clientAt(who, probe.block).wait !== "R" && lane(bank, who, "C").length < FULL) {
    found.push(["answer_probe", `answer_probe ${named("B", probe)}`, probe.block]);
  }
  const [answer] = lane(bank, who, "D");
  if (answer && answer.kind === "ReleaseAck") {
    found.push(["take_release_ack", `take_release_ack ${named("D", answer)}`, answer.block]);
  } else if (answer && lane(bank, who, "E").length < FULL) {
    found.push(["take_grant", `take_grant ${named("D", answer)}`, answer.block]);
  }
  return found;
}

"##;
