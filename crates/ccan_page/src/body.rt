//! What the page has before its data.

/// The body up to the element with the data, including that element's tag.
pub(crate) const BODY: &str = "<body>
<header>
<h1 id='title'>Steps of a script</h1>
<p id='count'></p>
<p class='quiet'>Keys: <kbd>&larr;</kbd> <kbd>&rarr;</kbd> a step, <kbd>Page Up</kbd> <kbd>Page Down</kbd> to a step that
something comes of, <kbd>Home</kbd> <kbd>End</kbd> the start and the end<span id='outcome-keys'>, <kbd>Shift</kbd> with
<kbd>&larr;</kbd> <kbd>&rarr;</kbd> an outcome</span>. What a step changed stands beside what it was before.</p>
<noscript><p><strong>This page shows its steps by JavaScript.</strong> <code>ccan-lab outcomes --all</code> and
<code>ccan-lab explain</code> print them as text.</p></noscript>
</header>
<div class='layout' id='layout'>
<nav aria-labelledby='outcomes-title' id='choice'>
<h2 id='outcomes-title'>Outcomes</h2>
<pre id='same' class='lines'></pre>
<ul id='outcomes' class='scroll'></ul>
</nav>
<main>
<section class='bar' aria-label='Go through the steps'>
<button type='button' id='first'>Start</button>
<button type='button' id='before'>Previous event</button>
<button type='button' id='back'>Back</button>
<button type='button' id='forward'>Forward</button>
<button type='button' id='next'>Next event</button>
<button type='button' id='last'>End</button>
<span id='place' class='mono'></span>
<span id='views' role='group' aria-label='What a step is'>
<button type='button' id='history' aria-pressed='true'>Steps of the history</button>
<button type='button' id='run' aria-pressed='false'>Whole lines in an order</button>
</span>
</section>
<section aria-live='polite' aria-atomic='true' aria-labelledby='step-title'>
<h2 id='step-title'></h2>
<p><span id='where' class='quiet'></span> <code id='line'></code></p>
<pre id='told' class='told'></pre>
<p id='sent' class='mono'></p>
</section>
<section aria-labelledby='objects-title'>
<h2 id='objects-title'>Message objects</h2>
<div class='scroll' tabindex='0' role='group' aria-labelledby='objects-title'><table><thead id='objects-head'></thead>
<tbody id='objects'></tbody></table></div>
<p id='no-objects' class='quiet'>No step changes an object.</p>
</section>
<section aria-labelledby='registers-title'>
<h2 id='registers-title'>Interface registers</h2>
<div class='scroll' tabindex='0' role='group' aria-labelledby='registers-title'><table><thead id='registers-head'></thead>
<tbody id='registers'></tbody></table></div>
<p id='no-registers' class='quiet'>No step changes the registers.</p>
</section>
<div class='pair'>
<section aria-labelledby='frames-title'>
<h2 id='frames-title'>Frames on the bus so far</h2>
<ol id='frames' class='scroll mono' tabindex='0'></ol>
<p id='no-frames' class='quiet'>None.</p>
</section>
<section aria-labelledby='steps-title'>
<h2 id='steps-title'>All steps</h2>
<ol id='steps' class='scroll steps'></ol>
</section>
</div>
<section aria-labelledby='script-title'>
<h2 id='script-title'>The script</h2>
<div id='script' class='scroll script' tabindex='0' role='group' aria-labelledby='script-title'></div>
</section>
</main>
</div>
<script type='application/json' id='data'>
";
