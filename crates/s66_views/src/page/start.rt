//! The constant parts of a page: style sheet, legend, and the heads of its lists.

/// The beginning of a page, up to its title.
pub(crate) const PAGE_START: &[u8] = b"<!DOCTYPE html>
<html lang='en'>
<meta charset='utf-8'>
<meta name='viewport' content='width=device-width'>
<title>";

/// What follows the title, up to the profile: how a page looks, and what its colours mean. Bars differ in height
/// too, so that the colours needn't be told apart. It follows the reader's choice of dark or light. `--n` is how many minor cycles
/// an order takes, `--one` how wide each is, and `--room` what stands right of the last for words. On paper, and on a screen whose
/// reader wants it, a minor cycle is no wider than what lets all stand side by side; words stay as they are, and of the ruler each
/// fifth or twentieth number stands where all would run together.
pub(crate) const PAGE_HEAD: &[u8] = b"</title>
<style>
:root{color-scheme:light dark;--em:10px;--first:#b3001b;--second:#f3a7b0;--third:#a3128c;--word:#7d1f2e}
@media(prefers-color-scheme:dark){:root{--first:#ff5a5f;--second:#a8606a;--third:#e05fd0;--word:#f0a3ad}}
*{print-color-adjust:exact;-webkit-print-color-adjust:exact}
body{font:13px sans-serif;margin:12px}
table{border-collapse:collapse}
th,td{font:12px/16px monospace;text-align:left;padding:0 8px 0 0}
th{white-space:pre}
.index td,.index th{text-align:right;padding-right:16px;white-space:nowrap}
.index td:nth-child(2),.index th:nth-child(2),.index td:last-child,.index th:last-child{text-align:left}
.index tr:last-child td{border-top:1px solid}
.order{--one:var(--em);--room:calc(40*var(--em));--side:44vw;--close:0;--frame:2px}
.index{margin-top:8px}
.order th{position:sticky;left:0;z-index:1;background:linear-gradient(CanvasText,CanvasText) 0/var(--mark,0) no-repeat Canvas;max-width:var(--side);overflow:hidden;text-overflow:ellipsis;padding-left:6px}
.ruler{position:sticky;top:0;z-index:2;background:Canvas}
svg{display:block;width:3em;height:16px;font-size:var(--em);overflow:visible}
.order svg{width:calc(var(--n)*1em + var(--room));font-size:var(--one);background:repeating-linear-gradient(90deg,rgb(136 136 136/min(.5,.5 - var(--close)*(var(--n) - 800))) 0 1px,#0000 1px 10em) 0/calc(var(--n)*1em) no-repeat,repeating-linear-gradient(90deg,#8886 0 1px,#0000 1px 100em) 0/calc(var(--n)*1em) no-repeat,linear-gradient(#8888,#8888) calc(var(--n)*1em)/1px no-repeat}
p span{display:inline-block;margin-right:16px}
p svg{display:inline-block;vertical-align:middle}
text{fill:CanvasText;word-spacing:calc(var(--em)/2)}
tspan{font-size:var(--em);word-spacing:0}
.unit tspan,.register tspan{font-size:min(var(--em),4*var(--one))}
.ruler text:not(:nth-child(20n+1)){fill-opacity:calc(1 - var(--close)*(var(--n) - 800))}
.ruler text:not(:nth-child(5n+1)){fill-opacity:calc(1 - var(--close)*(var(--n) - 200))}
rect{y:2px;height:12px}
.FIRST{y:6px;height:4px;fill:var(--first)}
.SECOND{y:4px;height:8px;fill:var(--second)}
.THIRD{fill:var(--third)}
tspan.SECOND{fill:var(--word)}
.BOOLEAN{fill:#56b4e9}
.SHIFT{fill:#b09a2f}
.ADD{fill:#e69f00}
.LONGADD{fill:#d8d04a}
.MULTIPLY{fill:#009e73}
.DIVIDE{fill:#5566cc}
.INCREMENT{fill:#8d99ae}
.taken{fill:CanvasText;opacity:.18}
.register rect{stroke:Canvas}
.unit text{fill:#000}
pre{font:12px/15px monospace;margin:4px 0;columns:46ch;white-space:pre-wrap}
.path th{--mark:3px;font-weight:bold}
.path~tr:not(.path):has(~.path) th{--mark:1px}
.path rect:not(.FIRST,.SECOND,.THIRD),rect.path{stroke:CanvasText;stroke-width:var(--frame,2px)}
#fit:checked~.order{--one:min(var(--em),(68vw - 40px - var(--room))/var(--n));--room:calc(24*var(--em));--side:28vw;--close:1;--frame:1px}
@media(max-width:600px){:root{--em:8px}.order{--side:52vw}#fit:checked~.order{--room:calc(14*var(--em))}#fit:checked~.order .unit th{white-space:pre-wrap}.order th{font-size:9px;padding-right:2px}.index td,.index th{font-size:10px;padding-right:8px}h2{font-size:15px}}
@media(min-width:1800px){:root{--em:14px}svg{height:20px}th,td{font-size:16px;line-height:20px}body{font-size:18px}pre{font:16px/20px monospace}}
@media print{
:root{--em:7px}
#fit,#fit+label{display:none}
.order{--one:min(var(--em),(72vw - 40px - var(--room))/var(--n));--room:calc(24*var(--em));--side:max(26vw,96vw - 40px - var(--room) - var(--n)*var(--one));--close:1;--frame:1px}
.order th,.order td{font-size:8px;line-height:13px}
.order th,.ruler{position:static}
.order svg{height:16px;margin:-2px 0 -1px}
thead{break-inside:avoid}
tr{break-inside:avoid}
h2,h3{break-after:avoid}
pre{font:8px/10px monospace}
tspan{font-family:sans-serif}
}
</style>
<p id='top'>A row for each instruction, in minor cycles of 100 ns:
<span><svg><rect class='FIRST' width='2em'/></svg>it can't issue (FIRST: structural hazard or WAW)</span>
<span><svg><rect class='SECOND' width='2em'/></svg>it waits for operands (SECOND: RAW)</span>
<span><svg><rect class='ADD' width='2em'/></svg>it works</span>
<span><svg><rect class='THIRD' width='2em'/></svg>its result is held (THIRD: WAR)</span>
<span><svg><rect class='ADD path' width='2em'/></svg>the end waits for it (PATH)</span>
<span><svg><rect class='taken' width='2em'/></svg>a unit or a register is taken</span>
</p>
<p>Units:
<span><svg><rect class='BOOLEAN' width='2em'/></svg>BOOLEAN</span>
<span><svg><rect class='SHIFT' width='2em'/></svg>SHIFT</span>
<span><svg><rect class='ADD' width='2em'/></svg>ADD</span>
<span><svg><rect class='LONGADD' width='2em'/></svg>LONGADD</span>
<span><svg><rect class='MULTIPLY' width='2em'/></svg>MULTIPLY</span>
<span><svg><rect class='DIVIDE' width='2em'/></svg>DIVIDE</span>
<span><svg><rect class='INCREMENT' width='2em'/></svg>INCREMENT</span>
</p>
";

/// What follows the profile on a page of two sources, up to the list of their blocks in pairs.
pub(crate) const PAGE_PAIRS: &[u8] =
    b"<input type='checkbox' id='fit'><label for='fit'>fit to width</label>
<pre style='columns:auto'>";

/// What follows the profile, up to the rows of the list of blocks.
pub(crate) const PAGE_LIST: &[u8] =
    b"<input type='checkbox' id='fit'><label for='fit'>fit to width</label>
<table class='index'>
<tr><th>BLOCK<th>ENTRY<th>LINE<th>COUNT<th>SOURCE<th>TIME<th>SAVED<th>BOUND
";
