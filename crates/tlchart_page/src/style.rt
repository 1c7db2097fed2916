//! The page's style: of page/page.css, as scripts/page_files.py writes it.

/// The style.
pub(crate) const STYLE: &str = r##":root { color-scheme: light dark;
  --paper: #ffffff; --ink: #1f2328; --quiet: #57606a; --line: #b8c0c8; --stripe: #f3f5f7; --here: #fff3bf; --mark: #7a4b00;
  --bad: #b91c1c; --link: #0b5cad; --A: #0b5cad; --B: #a34c00; --C: #7a35b8; --D: #18702f; --E: #56606b;
  --branch: #9ccbff; --tip: #f5b04c; }
@media (prefers-color-scheme: dark) { :root {
  --paper: #0d1117; --ink: #e6edf3; --quiet: #a3acb6; --line: #4b535d; --stripe: #161c24; --here: #3b3000; --mark: #ffd479;
  --bad: #ff8078; --link: #79bcff; --A: #79bcff; --B: #ffad66; --C: #d7b0ff; --D: #5fd876; --E: #b4bec9;
  --branch: #2563b8; --tip: #a06a00; } }
* { box-sizing: border-box; }
[hidden] { display: none !important; }
body { margin: 0; background: var(--paper); color: var(--ink); font: 14px/1.45 system-ui, 'DejaVu Sans', sans-serif; }
header { position: sticky; top: 0; z-index: 1; background: var(--paper); border-bottom: 1px solid var(--line); padding: 8px 16px; }
h1 { font-size: 18px; margin: 0 16px 0 0; display: inline-block; }
h2 { font-size: 16px; margin: 0 0 4px; }
h3 { font-size: 14px; margin: 16px 0 4px; }
.bar { display: inline-flex; gap: 8px; align-items: center; flex-wrap: wrap; }
button, select, input { font: inherit; color: inherit; background: var(--stripe); border: 1px solid var(--line); border-radius: 4px;
  padding: 3px 8px; }
input { width: 5.5em; }
button:disabled { color: var(--quiet); }
:focus-visible { outline: 2px solid var(--link); outline-offset: 1px; }
main { display: grid; grid-template-columns: minmax(0, 1.35fr) minmax(21em, 1fr); height: calc(100vh - var(--top, 48px)); }
#chart { overflow: auto; border-right: 1px solid var(--line); padding: 0 16px 8px 0; scroll-padding: 44px 80px 8px 260px; }
#state { display: flex; flex-direction: column; min-height: 0; }
#chart, #tables { contain: layout paint; }
#about { flex: none; max-height: 60%; overflow: auto; padding: 8px 16px; }
#tables { flex: 1; overflow: auto; padding: 0 16px 8px; border-top: 1px solid var(--line); }
@media (max-width: 900px) { main { display: block; height: auto; } #chart { max-height: 60vh; border-right: 0; } }
#rows, .sheets { width: max-content; }
.sheets { display: grid; grid-template-columns: max-content max-content; }
.sheets svg { display: block; }
.corner, .heads { position: sticky; top: 0; z-index: 2; background: var(--paper); }
.names { position: sticky; left: 0; z-index: 1; }
.corner { left: 0; z-index: 3; }
code, td, svg text, .code { font-family: ui-monospace, SFMono-Regular, Menlo, Consolas, 'DejaVu Sans Mono', monospace; }
code, td, .code { font-size: 12px; }
table { border-collapse: collapse; width: 100%; }
caption { text-align: left; font-weight: bold; padding: 12px 0 2px; }
th { text-align: left; font-weight: normal; color: var(--quiet); font-size: 12px; padding: 1px 8px 1px 0; vertical-align: bottom; }
.whole { white-space: nowrap; }
td { padding: 1px 8px 1px 0; border-top: 1px solid var(--line); vertical-align: top; }
details { margin: 0; padding: 8px 16px 4px; }
a { color: var(--link); }
summary { cursor: pointer; color: var(--link); }
ul { margin: 2px 0; padding-left: 18px; }
p { margin: 4px 0; }
.quiet { color: var(--quiet); }
.changed { background: var(--here); box-shadow: inset 2px 0 0 var(--mark); padding-left: 4px; }
.refused { border: 1px solid var(--bad); border-radius: 4px; padding: 4px 10px; margin: 6px 0; }
.refused strong { color: var(--bad); }
.gone { text-decoration: line-through; }
.news { display: inline-block; text-decoration: none; }
.more { margin: 6px 0; }
.sr { position: absolute; width: 1px; height: 1px; overflow: hidden; clip-path: inset(50%); }
svg text { font-size: 11px; fill: var(--ink); }
svg .quiet { fill: var(--quiet); }
svg .head { font-weight: bold; text-anchor: middle; }
svg .end { text-anchor: end; }
.life { stroke: var(--line); }
.stripe { fill: var(--stripe); } .plain { fill: var(--paper); }
.row, .message, [data-row] { cursor: pointer; }
[data-row]:hover, .row:hover rect { fill: var(--here); }
.row[aria-selected=true] rect, .here { fill: var(--here); stroke: var(--mark); }
.halo { paint-order: stroke; stroke: var(--paper); stroke-width: 3px; stroke-linejoin: round; }
.Branch { fill: var(--branch); } .Tip { fill: var(--tip); }
.dot, .store { fill: var(--ink); } .load { fill: var(--paper); stroke: var(--ink); stroke-width: 1.5; }
.cross { stroke: var(--bad); stroke-width: 2; fill: none; }
svg .bad { fill: var(--bad); }
.arrow { fill: none; stroke-width: 1.5; } .open { stroke-dasharray: 5 4; } .hit { fill: none; stroke: transparent; stroke-width: 12; }
.flies .arrow { stroke-width: 3; }
.A { stroke: var(--A); } .B { stroke: var(--B); } .C { stroke: var(--C); } .D { stroke: var(--D); } .E { stroke: var(--E); }
svg .tA { fill: var(--A); } svg .tB { fill: var(--B); } svg .tC { fill: var(--C); } svg .tD { fill: var(--D); } svg .tE { fill: var(--E); }
"##;
