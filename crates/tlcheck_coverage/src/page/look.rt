//! The page's style and script.

/// What stands before the tables.
pub(crate) const HEAD: &str = r##"<!doctype html>
<html lang="en">
<meta charset="utf-8">
<meta name="viewport" content="width=device-width">
<title>Situations reached</title>
<style>
:root { color-scheme: light dark }
body { font: 15px/1.4 system-ui, sans-serif; margin: 2em; color: #222; background: #fff }
table { border-collapse: collapse; margin: 0.5em 0 1.5em }
td, th { padding: 2px 8px; text-align: left; vertical-align: top; border-bottom: 1px solid #ddd; font-weight: normal }
thead th { color: #666 }
.count, .races td, .sums td { text-align: right; font-variant-numeric: tabular-nums }
.races thead th { writing-mode: vertical-rl; transform: rotate(180deg); text-align: left }
.races { display: block; overflow-x: auto }
.never { background: #fdf0d5 }
.part { background: #eef4fb }
.rows code { white-space: nowrap; user-select: all }
.filters { position: sticky; top: 0; padding: 6px 0; background: #fff }
.filters label { margin-right: 1em }
button { font: inherit; color: inherit; background: none; border: 0; padding: 0; cursor: pointer }
button { text-decoration: underline dotted }
@media (prefers-color-scheme: dark) {
  body, .filters { color: #ddd; background: #181818 }
  td, th { border-color: #444 }
  thead th { color: #aaa }
  .never { background: #3a2f16 }
  .part { background: #1c2b3a }
}
</style>
<noscript><style>.filters { display: none }</style></noscript>
"##;

/// What stands behind them: the filters' script.
pub(crate) const TAIL: &str = r##"<script>
"use strict";
for (const section of document.querySelectorAll("section")) {
  const rows = [...section.querySelectorAll(".rows tbody tr")];
  const names = ["never", "home", "action", "race"];
  const [never, home, action, race] = names.map((name) => section.querySelector(`[name=${name}]`));
  const told = section.querySelector("[role=status]");
  const fits = (row) => (!never.checked || row.classList.contains("never"))
    && (!home?.checked || row.querySelector(".home").textContent === "home")
    && (!action.value || row.dataset.action === action.value)
    && race.value.split("+").every((flight) => !flight || row.dataset.flights.includes(`|${flight}|`));
  const show = () => {
    for (const row of rows) row.hidden = !fits(row);
    told.textContent = `${rows.filter((row) => !row.hidden).length} of ${rows.length} situations`;
  };
  for (const button of section.querySelectorAll("button[data-race]")) {
    race.append(new Option(button.dataset.race.replace("+", " and "), button.dataset.race));
  }
  section.addEventListener("change", show);
  section.addEventListener("click", (event) => {
    const { race: both, action: one } = event.target.dataset;
    if (!event.target.matches("button")) return;
    if (both !== undefined) [race.value, action.value] = [both, ""];
    if (one !== undefined) [race.value, action.value] = ["", one];
    show();
    section.querySelector(".filters").scrollIntoView();
  });
  show();
}
</script>
</html>
"##;
