//! How the page looks, in light and in dark.

/// The element with the style.
pub(crate) const STYLE: &str = "<style>
:root{color-scheme:light dark;--page:#ffffff;--panel:#f6f8fa;--line:#d0d7de;--text:#1f2328;--quiet:#59636e;--here:#0969da;
--here-ground:#ddf4ff;--changed:#7d4e00;--changed-ground:#fff1b8;--button:#ffffff}
@media (prefers-color-scheme:dark){:root{--page:#0d1117;--panel:#161b22;--line:#3d444d;--text:#e6edf3;--quiet:#9198a1;--here:#79c0ff;
--here-ground:#0c2d6b;--changed:#f2cc60;--changed-ground:#3b2a00;--button:#21262d}}
*{box-sizing:border-box}
body{margin:0;background:var(--page);color:var(--text);font:15px/1.45 system-ui,sans-serif}
header{padding:12px 20px 4px}
h1{font-size:1.25rem;margin:0;overflow-wrap:anywhere}
h2{font-size:1rem;margin:0 0 6px}
h3{font-size:.9rem;margin:0 0 4px}
p{margin:2px 0 6px}
.quiet{color:var(--quiet)}
.hidden{position:absolute;width:1px;height:1px;overflow:hidden;clip-path:inset(50%);white-space:nowrap}
.layout{display:grid;grid-template-columns:minmax(180px,250px) minmax(0,1fr);gap:14px;padding:8px 20px 20px;align-items:start}
.layout.alone{grid-template-columns:minmax(0,1fr)}
nav,section{min-width:0;background:var(--panel);border:1px solid var(--line);border-radius:8px;padding:10px 12px}
main{display:grid;grid-template-columns:minmax(0,1fr);gap:14px;min-width:0}
.bar{position:sticky;top:0;z-index:2;display:flex;flex-wrap:wrap;gap:8px;align-items:center;background:var(--panel)}
.pair{display:grid;grid-template-columns:minmax(0,1fr) minmax(0,1fr);gap:14px}
@media (max-width:1000px){.layout,.pair{grid-template-columns:minmax(0,1fr)}}
button{font:inherit;color:inherit;background:var(--button);border:1px solid var(--line);border-radius:6px;padding:4px 10px;cursor:pointer;
text-align:left}
button:disabled{color:var(--quiet);cursor:default}
button[aria-pressed=true],button[aria-current]{border-color:var(--here);background:var(--here-ground)}
button[aria-current]{font-weight:600}
:focus-visible{outline:3px solid var(--here);outline-offset:2px}
ol,ul{list-style:none;margin:0;padding:0;display:grid;gap:4px}
.scroll{overflow:auto;max-height:22rem}
nav .scroll{max-height:32rem}
nav button,.steps button{width:100%}
.lines{display:block;font:12px/1.35 ui-monospace,Menlo,Consolas,monospace;font-weight:400;overflow-wrap:anywhere;white-space:pre-wrap}
pre,code,td,.mono{font:12.5px/1.4 ui-monospace,Menlo,Consolas,monospace}
pre{margin:4px 0;white-space:pre-wrap;overflow-wrap:anywhere}
.told{min-height:2.8em}
table{border-collapse:collapse}
th,td{border:1px solid var(--line);padding:2px 5px;text-align:left;white-space:nowrap}
th{font-weight:600;font-size:.78rem}
td.changed,li.changed{background:var(--changed-ground);color:var(--changed);font-weight:700}
.was{font-weight:400;text-decoration:line-through}
.script li{display:grid;grid-template-columns:6.5em minmax(0,1fr);gap:8px;padding:1px 4px;border-left:4px solid transparent}
.script li[aria-current]{border-left-color:var(--here);background:var(--here-ground)}
.script li.later{color:var(--quiet)}
.script code{white-space:pre-wrap;overflow-wrap:anywhere}
kbd{border:1px solid var(--line);border-radius:4px;padding:0 4px;font-size:.85em}
</style>
</head>
";
