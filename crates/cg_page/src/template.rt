//! The texts of the page that are the same for each node.

/// The texts before the node's name.
pub(crate) const BEFORE_NAME: &str = "<!doctype html>
<html lang=\"en\">
<head>
<meta charset=\"utf-8\">
<meta name=\"viewport\" content=\"width=device-width, initial-scale=1\">
<title>Cluster</title>
<style>
:root { color-scheme: light dark; font: 16px/1.4 system-ui, sans-serif }
body { margin: 0 auto; max-width: 100rem; padding: 1rem }
h1 { font-size: 1.2rem; margin: 0 0 1rem; overflow-wrap: anywhere }
main { display: grid; gap: 1rem; grid-template-columns: minmax(0, 1fr) }
svg { display: block; margin: 0 auto; max-width: 28rem; width: 100% }
circle { fill: none; stroke-width: 18 }
circle:hover { stroke-width: 24 }
#table { overflow-x: auto }
table { border-collapse: collapse; font-variant-numeric: tabular-nums; width: 100% }
caption { font-weight: bold; padding: .3rem; text-align: left }
th, td { border-bottom: 1px solid GrayText; padding: .3rem .6rem; text-align: left; vertical-align: top; white-space: nowrap }
i { border-radius: 50%; display: inline-block; height: .8em; margin-right: .4em; width: .8em }
dl { display: grid; gap: 0 .6rem; grid-template-columns: auto minmax(12rem, 40rem); margin: 0 }
dd { margin: 0; overflow-wrap: anywhere; white-space: pre-wrap }
@media (min-width: 60rem) { main { grid-template-columns: 28rem minmax(0, 1fr) } }
</style>
</head>
<body>
<h1>Node ";

/// The texts between the node's name and the arcs of the ring.
pub(crate) const AFTER_NAME: &str = "</h1>
<p id=\"told\" role=\"status\"></p>
<main>
<svg viewBox=\"-105 -105 210 210\" role=\"img\" aria-label=\"The ring of tokens, each arc in the colour of its endpoint\">
<g transform=\"rotate(-90)\">
";

/// The texts between the ring and the rows.
pub(crate) const AFTER_RING: &str = "</g>
</svg>
<div id=\"table\" role=\"region\" aria-labelledby=\"caption\" tabindex=\"0\">
<table>
<caption id=\"caption\">Endpoints</caption>
<thead>
<tr><th scope=\"col\">Endpoint</th><th scope=\"col\">Generation</th><th scope=\"col\">Heartbeat</th>
<th scope=\"col\">Newest</th><th scope=\"col\">Verdict</th><th scope=\"col\">Silent for (ms)</th>
<th scope=\"col\">States</th></tr>
</thead>
<tbody>
";

/// The texts between the rows and the script.
pub(crate) const AFTER_ROWS: &str = "</tbody>
</table>
</div>
</main>
<script>";

/// The script. It renews the rows each two seconds by `GET /status`, and loads the page again if the ring may have changed.
pub const SCRIPT: &str = "
\"use strict\";
const rows = document.querySelector(\"tbody\");
const told = document.getElementById(\"told\");
function put(cell, text) {
  if (cell.textContent !== text) cell.textContent = text;
}
function shown(row) {
  const states = {};
  for (const name of row.querySelectorAll(\"dt\")) states[name.textContent] = name.nextElementSibling.textContent;
  return states;
}
function sameRing(row, states) {
  const before = shown(row);
  return before.STATUS === states.STATUS && before.TOKENS === states.TOKENS;
}
function list(row, states) {
  const items = [];
  for (const [name, text] of Object.entries(states)) {
    const key = document.createElement(\"dt\"), value = document.createElement(\"dd\");
    key.textContent = name;
    value.textContent = text;
    items.push(key, value);
  }
  row.querySelector(\"dl\").replaceChildren(...items);
}
function renew(endpoints) {
  const found = endpoints.map(it => document.getElementById(it.endpoint));
  const same = rows.rows.length === endpoints.length && found.every((row, i) => row && sameRing(row, endpoints[i].states));
  if (!same) return location.reload();
  endpoints.forEach((it, i) => {
    const cells = found[i].cells;
    put(cells[1], String(it.generation));
    put(cells[2], String(it.heartbeat));
    put(cells[3], String(it.newest));
    put(cells[4], it.verdict ?? \"\");
    put(cells[5], String(it.since_ms ?? \"\"));
    put(found[i].querySelector(\"summary\"), String(Object.keys(it.states).length));
    if (JSON.stringify(shown(found[i])) !== JSON.stringify(it.states)) list(found[i], it.states);
  });
}
async function turn() {
  try {
    const answer = await fetch(\"/status\", { cache: \"no-store\" });
    renew((await answer.json()).endpoints);
    put(told, \"\");
  } catch (_) {
    put(told, \"The node does not answer.\");
  }
  setTimeout(turn, 2000);
}
setTimeout(turn, 2000);
";

/// The texts behind the script.
pub(crate) const AFTER_SCRIPT: &str = "</script>
</body>
</html>
";
