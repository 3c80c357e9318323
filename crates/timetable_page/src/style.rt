//! The style and the script of the page.

/// How the page looks: light or dark as the reader's device wants it, on a screen, a phone and paper. What a colour
/// marks, a word or a line beside it says too.
pub(crate) const STYLE: &str = r#"
:root{color-scheme:light dark;--ink:#1c1d22;--soft:#5b5f6b;--back:#fff;--band:#f3f4f7;--line:#d3d6de;--link:#0b57b0;
--bad:#a80f1e;--badback:#fde8e8;--idle:#7a5200;--idleback:#fff4d6;--best:#0f6b2f}
@media(prefers-color-scheme:dark){:root{--ink:#e8e9ee;--soft:#a3a8b6;--back:#15161a;--band:#1f2127;--line:#3a3d47;
--link:#8ab8ff;--bad:#ff9c9c;--badback:#42191c;--idle:#ffd479;--idleback:#3a2c08;--best:#7fdc9b}}
*{box-sizing:border-box}
html{scroll-padding-top:3rem}
body{margin:0 auto;padding:1rem;max-width:80rem;font:1rem/1.45 system-ui,sans-serif;color:var(--ink);
background:var(--back)}
h1,h2,h3,h4,p,dd,li{overflow-wrap:break-word}
h1{font-size:1.6rem;margin:.2rem 0}h2{font-size:1.25rem;margin:.2rem 0 .5rem}h3{margin:1rem 0 .3rem}h4{margin:.8rem 0 .2rem}
a{color:var(--link)}small,.nothing,dt{color:var(--soft)}
dl{display:grid;grid-template-columns:max-content 1fr;gap:.1rem .8rem}dd{margin:0}
nav a{display:inline-block;padding:.15rem .5rem .15rem 0;white-space:nowrap}
.top{position:sticky;top:0;z-index:3;background:var(--back);border-bottom:1px solid var(--line);overflow-x:auto;
white-space:nowrap;padding:.3rem 0}
.sol{border-top:2px solid var(--line);margin-top:1.6rem;padding-top:1rem}
.totals{font-size:1.15rem}
.wide,.one{overflow:auto;max-height:85vh}
table{border-collapse:separate;border-spacing:0;margin:.3rem 0 .8rem;border-top:1px solid var(--line);
border-left:1px solid var(--line)}
th,td{border:0 solid var(--line);border-width:0 1px 1px 0;padding:.25rem .5rem;text-align:left;vertical-align:top}
thead th,thead td{background:var(--band);position:sticky;top:0;z-index:1}
th[scope=row]{position:sticky;left:0;z-index:1;background:var(--back)}
thead th:first-child,thead td:first-child{left:0;z-index:2}.costs th[scope=row]{position:static}
.num{text-align:right;font-variant-numeric:tabular-nums}
.fine{color:var(--soft)}.fine th{font-weight:normal}
.why>td{background:var(--band)}
.grid{width:100%}.grid th[scope=col]{width:12rem;min-width:7rem}
.grid td{font-size:.9rem}.grid th[scope=row]{width:2.5rem}.grid thead td{width:2.5rem;min-width:2.5rem}
.grid hr{border:0;border-top:1px dashed var(--line);margin:.2rem 0}
.grid td>a:not(.mark){margin-right:.25rem}
caption{text-align:left;font-weight:600}
.bad{color:var(--bad);font-weight:600}
td.bad{background:var(--badback);box-shadow:inset 0 0 0 2px var(--bad);font-weight:400}
td.idle{background:var(--idleback);outline:1px dashed var(--idle);outline-offset:-2px}
td.off{color:var(--soft);background:var(--band)}
td.gap,.more{color:var(--soft)}.more{display:block;font-size:.8rem}
td.none{border:0}
.mark{display:block;font-weight:700;font-size:.8rem;color:var(--bad)}.idle .mark{color:var(--idle)}
.best{color:var(--best);font-weight:700;white-space:nowrap}
summary{cursor:pointer;font-weight:600;padding:.2rem 0}.why summary{font-weight:400}
.why ul{margin:.2rem 0;padding-left:1.2rem;max-width:80vw}
button{font:inherit;color:inherit;background:none;border:0;padding:0;cursor:pointer;text-align:left;
text-decoration:underline dotted}
th[aria-sort=ascending] button::after{content:" \25b2"}th[aria-sort=descending] button::after{content:" \25bc"}
search{display:block;margin:.8rem 0}label{display:block}
input{font:inherit;width:100%;max-width:28rem;padding:.35rem .5rem;color:inherit;background:var(--band);
border:1px solid var(--line);border-radius:.3rem}
#found{list-style:none;margin:.3rem 0;padding:0;columns:18rem}
.legend{color:var(--soft);margin:.4rem 0}
@media screen and (max-width:40rem){th,td{padding:.15rem .25rem}.costs{font-size:.7rem;width:100%}
.costs .why{font-size:.85rem}.why ul{padding-left:1rem}
.grid td{font-size:.75rem}.grid th[scope=col]{width:auto;min-width:3.9rem;font-size:.8rem}
.grid th[scope=row],.grid thead td{width:1.5rem;min-width:1.5rem}}
:focus-visible{outline:3px solid var(--link);outline-offset:2px}
:target{outline:3px solid var(--link);outline-offset:1px}
@media print{:root{color-scheme:light;--ink:#000;--soft:#000;--back:#fff;--band:#fff;--line:#888;--link:#000;--bad:#000;
--badback:#fff;--idle:#000;--idleback:#fff;--best:#000}
body{max-width:none;padding:0;font-size:9pt}search,noscript,nav,.times{display:none}
a,button{color:inherit;text-decoration:none}th,thead th,thead td,th[scope=row]{position:static}
.one{break-inside:avoid;overflow:visible;max-height:none}h3,caption{break-after:avoid}
.wide{overflow:visible;max-height:none}.sol{break-before:page}
tr,li{break-inside:avoid}thead{display:table-header-group}.grid td{min-width:0}}
"#;

/// What the page does: it sorts the summary by a head, finds resources and events by their names, and opens what a
/// link leads to, and all of it for paper.
pub(crate) const SCRIPT: &str = r##"
'use strict';
const all=(s,r)=>Array.from((r||document).querySelectorAll(s));
const open=e=>{for(let d=e;d;d=d.parentElement)if(d.tagName==='DETAILS')d.open=true};
const place=()=>{try{return decodeURIComponent(location.hash.slice(1))}catch(fault){return ''}};
const go=()=>{const e=document.getElementById(place());
 if(e){open(e);const d=e.querySelector('details');if(d&&e.tagName==='TR')d.open=true;e.scrollIntoView()}};
addEventListener('hashchange',go);go();
addEventListener('beforeprint',()=>all('details').forEach(d=>d.open=true));
all('.sol').forEach(s=>{const names=all('.times table',s).map(t=>Array.from(t.tBodies[0].rows,
 r=>Array.from(r.cells,c=>c.textContent)));
 all('.one',s).forEach(o=>all('table',o).forEach((t,k)=>Array.from(t.tBodies[0].rows).forEach((r,i)=>
 Array.from(r.cells).forEach((c,j)=>{if(c.tagName==='TD'&&c.className!=='none'&&!c.title)c.title=names[k][i][j]}))))});
const value=c=>c.dataset.v?c.dataset.v.split(' ').map(BigInt):null;
const order=(a,b)=>{const x=value(a),y=value(b);
 if(x&&y)return x[0]<y[0]?-1:x[0]>y[0]?1:x[1]<y[1]?-1:x[1]>y[1]?1:0;
 if(x||y)return x?-1:1;
 return a.textContent.localeCompare(b.textContent,undefined,{numeric:true})};
all('table.sorts thead button').forEach(b=>b.addEventListener('click',()=>{
 const h=b.parentElement,n=Array.from(h.parentElement.children).indexOf(h),t=h.closest('table').tBodies[0];
 const down=h.getAttribute('aria-sort')==='ascending';
 all('th',h.parentElement).forEach(o=>o.removeAttribute('aria-sort'));
 h.setAttribute('aria-sort',down?'descending':'ascending');
 const rows=Array.from(t.rows).sort((a,b)=>order(a.cells[n],b.cells[n]));
 if(down)rows.reverse();
 t.append(...rows)}));
let names=null;
const find=document.getElementById('find'),found=document.getElementById('found');
find.addEventListener('input',()=>{
 names=names||all('.n').map(e=>({text:e.textContent,low:e.textContent.toLowerCase(),to:e.closest('[id]').id}));
 const word=find.value.trim().toLowerCase();
 const hits=word?names.filter(n=>n.low.includes(word)):[];
 found.replaceChildren(...hits.slice(0,40).map(n=>{const i=document.createElement('li'),a=document.createElement('a');
  a.href='#'+n.to;a.textContent=n.text+' (solution '+n.to.slice(1).match(/^\d+/)[0]+')';i.append(a);return i}));
 if(word&&!hits.length){const i=document.createElement('li');i.textContent='nothing found';found.append(i)}
 if(hits.length>40){const i=document.createElement('li');i.textContent='and '+(hits.length-40)+' more';found.append(i)}});
"##;
