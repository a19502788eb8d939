//! What the page has after its data: the script that shows its steps.

/// From the end of the data to the last byte.
pub(crate) const STEPPING: &str = "
</script>
<script>
'use strict';
(function () {
  const page = JSON.parse(document.getElementById('data').textContent);
  const PORTS = ['if1', 'if2', 'bus'];
  const FIELDS = [['id', 'ID'], ['xtd', 'Xtd'], ['dir', 'Dir'], ['valid', 'MsgVal'], ['newdat', 'NewDat'], ['msglst', 'MsgLst'],
    ['intpnd', 'IntPnd'], ['txrqst', 'TxRqst'], ['dlc', 'DLC'], ['data', 'Data'], ['eob', 'EoB'], ['umask', 'UMask'],
    ['mask', 'Msk'], ['mxtd', 'MXtd'], ['mdir', 'MDir'], ['txie', 'TxIE'], ['rxie', 'RxIE'], ['rmten', 'RmtEn']];
  const ARROW = String.fromCharCode(0x2192);
  let noting = 0;
  const here = { outcome: 0, view: 'history', step: 0 };

  function element(id) {
    return document.getElementById(id);
  }

  function made(name, words, kind) {
    const part = document.createElement(name);
    if (words !== undefined) { part.textContent = words; }
    if (kind) { part.className = kind; }
    return part;
  }

  function steps() {
    return page.outcomes.length === 0 ? [] : page.outcomes[here.outcome][here.view];
  }

  function hexadecimal(value, digits) {
    return value.toString(16).padStart(digits, '0');
  }

  function pairs(digits) {
    return (digits.match(/../g) || []).join(' ');
  }

  function shown(record, name) {
    if (name === 'id' || name === 'mask') { return hexadecimal(record[name], record.xtd ? 8 : 3); }
    return name === 'data' ? pairs(record.data) : String(record[name]);
  }

  function frameWords(frame) {
    const id = hexadecimal(frame.id, frame.xtd ? 8 : 3);
    const sender = frame.node === 0 ? 'the chip' : 'node ' + frame.node;
    const content = frame.rtr ? 'remote frame, DLC ' + frame.dlc : 'DLC ' + frame.dlc + (frame.data ? ', ' + pairs(frame.data) : '');
    return 'ID ' + id + ', ' + content + ', from ' + sender;
  }

  function lineName(step) {
    return step.port + '[' + step.line + ']';
  }

  // Fills a cell with a field of a record; where the step changed it, with what it was before that.
  function fill(cell, name, change, record) {
    const now = shown(change ? change.after : record, name);
    const was = change ? shown(change.before, name) : now;
    if (was === now) {
      cell.textContent = now;
      return;
    }
    cell.className = 'changed';
    cell.append(made('span', 'changed from ', 'hidden'), made('span', was, 'was'), ' ' + ARROW + ' ' + now);
  }

  // Of each thing, by its name: the record that the last step up to here left, and the change of the step here.
  function records(changesOf) {
    const found = new Map();
    steps().forEach(function (step, place) {
      changesOf(step).forEach(function (told) {
        const known = found.get(told.name) || { record: told.change.before, change: null };
        if (place < here.step) { known.record = told.change.after; }
        if (place === here.step - 1) { known.change = told.change; }
        found.set(told.name, known);
      });
    });
    return found;
  }

  function objectChanges(step) {
    return step.objects.map(function (object) { return { name: object.number, change: object }; });
  }

  function registerChanges(step) {
    return step.registers ? [{ name: step.port, change: step.registers }] : [];
  }

  function table(head, body, none, title, found, names) {
    element(head).replaceChildren();
    element(body).replaceChildren();
    element(none).hidden = found.size !== 0;
    element(head).parentElement.hidden = found.size === 0;
    if (found.size === 0) { return; }
    const headings = made('tr');
    [title].concat(FIELDS.map(function (field) { return field[1]; })).forEach(function (words) {
      const heading = made('th', words);
      heading.scope = 'col';
      headings.append(heading);
    });
    element(head).append(headings);
    names.forEach(function (name) {
      const known = found.get(name);
      if (!known) { return; }
      const row = made('tr');
      const heading = made('th', String(name).toUpperCase());
      heading.scope = 'row';
      row.append(heading);
      FIELDS.forEach(function (field) {
        const cell = made('td');
        fill(cell, field[0], known.change, known.record);
        row.append(cell);
      });
      element(body).append(row);
    });
  }

  function showRecords() {
    const objects = records(objectChanges);
    const numbers = Array.from(objects.keys()).sort(function (one, other) { return one - other; });
    table('objects-head', 'objects', 'no-objects', 'Object', objects, numbers);
    table('registers-head', 'registers', 'no-registers', 'Interface', records(registerChanges), PORTS);
  }

  function showFrames() {
    element('frames').replaceChildren();
    steps().slice(0, here.step).forEach(function (step, place) {
      if (step.frame) {
        const isHere = place === here.step - 1;
        const item = made('li', (place + 1) + '. ' + lineName(step) + ': ' + frameWords(step.frame), isHere ? 'changed' : '');
        if (isHere) { item.setAttribute('aria-current', 'step'); }
        element('frames').append(item);
      }
    });
    element('no-frames').hidden = element('frames').children.length !== 0;
    element('frames').hidden = element('frames').children.length === 0;
    element('frames').scrollTop = element('frames').scrollHeight;
  }

  function showStep() {
    const all = steps();
    const step = all[here.step - 1];
    const number = page.outcomes.length === 0 ? 0 : page.outcomes[here.outcome].number;
    const of = number === 0 ? 'Run, ' : 'Outcome ' + number + ', ';
    element('place').textContent = here.step + ' / ' + all.length;
    if (!step) {
      element('step-title').textContent = of + (all.length === 0 ? 'no steps' : 'before the first of ' + all.length + ' steps');
      ['where', 'line', 'sent'].forEach(function (id) { element(id).textContent = ''; });
      element('told').textContent = page.outcomes.length === 0 ? '' : page.outcomes[here.outcome].opening;
      return;
    }
    const line = page[step.port][step.line];
    element('step-title').textContent = of + 'step ' + here.step + ' of ' + all.length + ': ' + lineName(step) + ' ' + step.deed;
    element('where').textContent = line ? 'line ' + line.row + ' of the script:' : '';
    element('line').textContent = line ? line.text : '';
    element('told').textContent = step.told;
    element('sent').textContent = step.frame ? 'On the bus: ' + frameWords(step.frame) : '';
  }

  function scrollTo(list, item) {
    if (item) {
      const top = item.getBoundingClientRect().top - list.getBoundingClientRect().top + list.scrollTop;
      list.scrollTop = top - (list.clientHeight - item.offsetHeight) / 2;
    }
  }

  // Marks one item of a list, and brings it to the middle of what is seen of the list.
  function mark(list, items, place, word) {
    items.forEach(function (item, number) {
      if (number === place) { item.setAttribute('aria-current', word); } else { item.removeAttribute('aria-current'); }
    });
    scrollTo(list, items[place]);
  }

  function showScript() {
    const step = steps()[here.step - 1];
    const past = { if1: -1, if2: -1, bus: -1 };
    steps().slice(0, here.step).forEach(function (done) { past[done.port] = Math.max(past[done.port], done.line); });
    let current = null;
    element('script').querySelectorAll('li').forEach(function (item) {
      const line = Number(item.dataset.line);
      const isHere = Boolean(step) && step.port === item.dataset.port && step.line === line;
      item.classList.toggle('later', line > past[item.dataset.port]);
      if (isHere) { item.setAttribute('aria-current', 'step'); } else { item.removeAttribute('aria-current'); }
      if (isHere) { current = item; }
    });
    scrollTo(element('script'), current);
  }

  function showButtons() {
    const count = steps().length;
    const outcome = page.outcomes[here.outcome];
    ['first', 'before', 'back'].forEach(function (id) { element(id).disabled = here.step === 0; });
    ['forward', 'next', 'last'].forEach(function (id) { element(id).disabled = here.step === count; });
    element('views').hidden = !outcome || outcome.history.length === 0 || outcome.run.length === 0;
    ['history', 'run'].forEach(function (view) { element(view).setAttribute('aria-pressed', String(here.view === view)); });
  }

  // The address names what is shown, so that it can be opened again; not at each step of a key that is held.
  function noteInAddress() {
    history.replaceState(null, '', '#' + (here.outcome + 1) + '.' + here.step + (here.view === 'run' ? '.run' : ''));
  }

  function show() {
    mark(element('outcomes'), Array.from(element('outcomes').querySelectorAll('button')), here.outcome, 'true');
    mark(element('steps'), Array.from(element('steps').querySelectorAll('button')), here.step - 1, 'step');
    showStep();
    showRecords();
    showFrames();
    showScript();
    showButtons();
    clearTimeout(noting);
    noting = setTimeout(noteInAddress, 300);
  }

  function goTo(step) {
    here.step = Math.max(0, Math.min(steps().length, step));
    show();
  }

  // Whether something comes of a step: an answer, a frame, or a change.
  function isEvent(step) {
    return step.told !== '' || Boolean(step.frame) || Boolean(step.registers) || step.objects.length !== 0;
  }

  // The next event from here, forwards or backwards, or else where the steps end that way.
  function eventFrom(by) {
    const all = steps();
    let step = here.step + by;
    while (step > 0 && step < all.length && !isEvent(all[step - 1])) { step += by; }
    return step;
  }

  function listSteps() {
    element('steps').replaceChildren();
    steps().forEach(function (step, place) {
      const button = made('button', (place + 1) + '. ' + lineName(step) + ' ' + step.deed);
      button.type = 'button';
      button.addEventListener('click', function () { goTo(place + 1); });
      const item = made('li');
      item.append(button);
      element('steps').append(item);
    });
  }

  function choose(outcome, view, step) {
    if (outcome < 0 || outcome >= page.outcomes.length) { return; }
    const told = page.outcomes[outcome];
    here.outcome = outcome;
    here.view = told[view].length === 0 ? (told.history.length === 0 ? 'run' : 'history') : view;
    listSteps();
    goTo(step);
  }

  function listOutcomes() {
    page.outcomes.forEach(function (outcome, place) {
      const button = made('button', 'Outcome ' + outcome.number);
      button.type = 'button';
      button.append(made('span', outcome.lines.trimEnd(), 'lines'));
      button.addEventListener('click', function () { choose(place, here.view, 0); });
      const item = made('li');
      item.append(button);
      element('outcomes').append(item);
    });
  }

  function listScript() {
    PORTS.forEach(function (port) {
      if (page[port].length === 0) { return; }
      const list = made('ol');
      page[port].forEach(function (line, number) {
        const item = made('li');
        item.dataset.port = port;
        item.dataset.line = String(number);
        item.append(made('span', port + '[' + number + ']', 'mono'), made('code', line.text));
        list.append(item);
      });
      element('script').append(made('h3', port), list);
    });
  }

  function countWords() {
    if (page.count === 0) { return 'One run of the script in its order.'; }
    const all = page.count === 1 ? 'The script has 1 outcome.' : 'The script has ' + page.count + ' outcomes in all.';
    return page.outcomes.length === page.count ? all + ' Each is on this page.'
      : all + ' The first ' + page.outcomes.length + ' of them are on this page.';
  }

  function showTitle() {
    const title = (page.count === 0 ? 'A run of ' : 'What can come of ') + (page.file || 'a script');
    document.title = title;
    element('title').textContent = title;
    element('count').textContent = countWords();
    element('same').textContent = page.same.trimEnd();
    element('same').hidden = page.same === '';
    element('choice').hidden = page.count === 0;
    element('outcome-keys').hidden = page.count === 0;
    element('layout').classList.toggle('alone', page.count === 0);
  }

  function key(event) {
    if (event.ctrlKey || event.altKey || event.metaKey) { return; }
    const by = { ArrowRight: 1, ArrowLeft: -1 }[event.key];
    if (event.shiftKey && (by === 1 || by === -1)) {
      choose(here.outcome + by, here.view, 0);
    } else if (event.shiftKey) {
      return;
    } else if (by) {
      goTo(here.step + by);
    } else if (event.key === 'PageDown') {
      goTo(eventFrom(1));
    } else if (event.key === 'PageUp') {
      goTo(eventFrom(-1));
    } else if (event.key === 'Home') {
      goTo(0);
    } else if (event.key === 'End') {
      goTo(steps().length);
    } else {
      return;
    }
    event.preventDefault();
  }

  function start() {
    const asked = location.hash.slice(1).split('.');
    const outcome = Number(asked[0]) - 1;
    const isThere = outcome >= 0 && outcome < page.outcomes.length;
    choose(isThere ? outcome : 0, asked[2] === 'run' ? 'run' : 'history', Number(asked[1]) || 0);
  }

  showTitle();
  listOutcomes();
  listScript();
  element('first').addEventListener('click', function () { goTo(0); });
  element('back').addEventListener('click', function () { goTo(here.step - 1); });
  element('forward').addEventListener('click', function () { goTo(here.step + 1); });
  element('before').addEventListener('click', function () { goTo(eventFrom(-1)); });
  element('next').addEventListener('click', function () { goTo(eventFrom(1)); });
  element('last').addEventListener('click', function () { goTo(steps().length); });
  element('history').addEventListener('click', function () { choose(here.outcome, 'history', 0); });
  element('run').addEventListener('click', function () { choose(here.outcome, 'run', 0); });
  document.addEventListener('keydown', key);
  start();
}());
</script>
</body>
</html>
";
