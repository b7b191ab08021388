//! The page's style sheet: colours for light, dark and print, and what the symbols look like.
ghost use Rattle.std.specs.Prelude.{◌≡◌};
ghost use Rattle.page_frame.specs.Styles.{style_sheet};

/// The style sheet of each page.
pub fn style_sheet() -> &'static str
    ensures { result.now ≡ style_sheet }
{
    STYLE
}

/// Its rules.
const STYLE: &str =
    ":root{color-scheme:light dark;--bg:#fff;--fg:#1b1f24;--mute:#5b6470;--rule:#d5dae0;--line:#4b5560;--box:#fff;--boxl:#4b5560;--dec:#fff6dc;--decl:#a87900;--exe:#e8f1fc;--exel:#2b66b1;--term:#e9ecef;--link:#1556a8;--bad:#c4151c;--badbg:#fde8e8;--ok:#1d7a3d;--ran:#6b2fb3;--head:#f4f6f8}
@media (prefers-color-scheme:dark){:root{--bg:#15181c;--fg:#e4e8ec;--mute:#929ca7;--rule:#333a42;--line:#9aa5b1;--box:#1c2126;--boxl:#8b96a2;--dec:#352c12;--decl:#d3a432;--exe:#15283f;--exel:#6aa3e8;--term:#2b3138;--link:#7fb3f2;--bad:#ff6b6b;--badbg:#471a1c;--ok:#63c785;--ran:#c9a6ff;--head:#1d2227}}
*{box-sizing:border-box}
body{margin:0;padding:24px 28px 60px;overflow-wrap:break-word;background:var(--bg);color:var(--fg);font:15px/1.45 system-ui,\"Segoe UI\",\"Helvetica Neue\",\"DejaVu Sans\",Arial,sans-serif}
h1{font-size:26px;margin:0 0 6px}h1 small{font-weight:400;color:var(--mute);font-size:16px}
h2{font-size:19px;margin:28px 0 10px}h3{font:600 16px/1.3 ui-monospace,\"DejaVu Sans Mono\",Menlo,Consolas,monospace;margin:0}
p{margin:4px 0;max-width:75ch}.lead,.sub,.com,.by{color:var(--mute)}.com,.by,.sub{font-size:13.5px}
a{color:var(--link)}a:focus-visible{outline:2px solid var(--link);outline-offset:2px}
svg a:focus-visible{outline-offset:0}.s a:focus-visible .x{stroke-width:3}
.skip{position:absolute;left:-999px}.skip:focus{left:8px;top:8px;background:var(--bg);padding:6px}
.ok{border-left:4px solid var(--ok);padding:4px 10px}
.no{border-left:4px solid var(--bad);background:var(--badbg);padding:8px 12px;margin:8px 0;max-width:90ch}
code,.num,td:nth-child(2),tbody th[scope=row]{font-family:ui-monospace,\"DejaVu Sans Mono\",Menlo,Consolas,monospace;font-size:12.5px}
code{overflow-wrap:anywhere}
nav ul{list-style:none;margin:0;padding:0;columns:16em auto;column-gap:20px;font:13px/1.7 ui-monospace,\"DejaVu Sans Mono\",Menlo,Consolas,monospace}
nav li span,th.g span{color:var(--mute);font-weight:400;font-size:11px}nav li.bad a{color:var(--bad);font-weight:700}
.scroll{overflow-x:auto}.scroll table{min-width:46em}
table{border-collapse:collapse;width:100%;max-width:1100px;font-size:13.5px}
th,td{text-align:left;vertical-align:top;padding:3px 14px 3px 0;border-bottom:1px solid var(--rule)}
thead th{color:var(--mute);font-weight:500;font-size:12.5px}
th.g{background:var(--head);padding:6px 8px;font-size:13.5px}tbody th[scope=row]{font-weight:600}
tr.bad th,tr.bad td{background:var(--badbg);color:var(--bad)}
.tab span{display:inline-block;margin:0 12px 0 0;font:12.5px/1.5 ui-monospace,\"DejaVu Sans Mono\",Menlo,Consolas,monospace}
.tab i{font-style:normal;color:var(--mute);font-size:10px;margin-right:4px}
#methods{display:flex;flex-wrap:wrap;align-items:flex-start;gap:36px 40px}#methods h2{flex:0 0 100%;margin-bottom:-30px}#methods>.com{flex:0 0 100%}.key{flex:0 0 100%;max-width:none;color:var(--mute);font-size:13px}.key+.key{margin-top:-26px}.m{min-width:280px;max-width:100%;padding-top:12px;border-top:1px solid var(--rule)}.m.bad h3{color:var(--bad)}
.fig{margin-top:12px}.fig,.key{overflow-x:auto}:is(.fig,.key) svg{max-width:none}
svg{display:block;max-width:100%;height:auto;font:12px ui-monospace,\"DejaVu Sans Mono\",Menlo,Consolas,\"Liberation Mono\",monospace}
svg text{fill:var(--fg)}tspan{fill:var(--mute)}.s.bad tspan{fill:inherit}
.l{fill:none;stroke:var(--line);stroke-width:1.3}.a{fill:var(--line)}
.t{fill:var(--term);stroke:var(--boxl);stroke-width:1.3}.n{font-weight:700;font-size:13px}
.b{fill:var(--box);stroke:var(--boxl);stroke-width:1.3}
.d{fill:var(--dec);stroke:var(--decl);stroke-width:1.3}
.x{fill:var(--exe);stroke:var(--exel);stroke-width:1.3}.xx{stroke:var(--exel);stroke-width:1.3}
svg .m{fill:var(--link);font-weight:700;text-decoration:underline}
svg .p{fill:var(--mute);font-size:9.5px;text-anchor:end}
svg .y,svg .e{fill:var(--mute);font:italic 11.5px system-ui,\"DejaVu Sans\",Arial,sans-serif}.e{text-anchor:end}
svg .c{fill:var(--mute);font:italic 11.5px system-ui,\"DejaVu Sans\",Arial,sans-serif}.k{fill:none;stroke:var(--mute);stroke-width:1;stroke-dasharray:2 2}
.s.bad rect:not(.x){fill:var(--badbg);stroke:var(--bad);stroke-width:1.5}.s.bad text{fill:var(--bad)}.s.bad .x,.d.bad,.t.bad{fill:var(--badbg);stroke:var(--bad);stroke-width:2}
.s,.m{scroll-margin-top:24px}.s:target text{fill:var(--link);font-weight:700}.s.bad:target text{fill:var(--bad)}
.run{overflow-x:auto}.run table{display:inline-table;width:auto;vertical-align:top;margin:0 40px 12px 0}.run caption{text-align:left;font-weight:600;padding:0 0 4px}.run td{text-align:right}.run td:nth-child(3){text-align:left;color:var(--mute)}
#run h3,#coverage h3{font-family:inherit}#coverage h3{margin-top:14px}#coverage table{width:auto}#coverage th{overflow-wrap:anywhere}#coverage caption{text-align:left;font-weight:600;padding:0 0 4px}ol.run{max-height:30em;overflow:auto;margin:4px 0 12px;padding:0 0 0 4.5em;border:1px solid var(--rule);font-size:13px;line-height:1.7}ol.run span{color:var(--mute);font-size:12px}ol.run em{font-style:normal;font-weight:700;color:var(--ran);margin:0 6px;font-family:ui-monospace,\"DejaVu Sans Mono\",Menlo,Consolas,monospace;font-size:12.5px}li:target{outline:2px solid var(--ran)}
.blocked{border-left:4px solid var(--bad);padding:4px 10px}
.traced .fig :is(.b,.d,.l,.a):not(.ran),.traced .s:not(.ran) :is(.x,.xx){opacity:.45}.traced .s:not(.ran,:target) :is(text,tspan){fill:var(--mute)}.b.ran,.d.ran,.s.ran .x,.s.ran .xx{stroke:var(--ran);stroke-width:1.8}.l.ran{stroke:var(--ran);stroke-width:2.4}.a.ran{fill:var(--ran)}.s.ran .v{fill:var(--ran);font-weight:700}svg .y.ran,svg .e.ran{fill:var(--ran);font-weight:700}.s.ran a .p{fill:var(--link);text-decoration:underline}
.b.missed,.d.missed,.s.missed .x,.s.missed .xx{fill:var(--badbg);stroke:var(--bad);stroke-width:1.8;stroke-dasharray:6 3}.s.missed .v{fill:var(--bad);font-weight:700}svg .missed:is(.y,.e){fill:var(--bad);font-size:10px}
.b.dead,.d.dead,.s.dead .x,.s.dead .xx{fill:var(--head);stroke:var(--mute);stroke-dasharray:3 3}.s.dead text{fill:var(--mute)}.s.dead .v,svg .dead:is(.y,.e){font-weight:700}.ranged .l{stroke:var(--mute);stroke-width:1;stroke-dasharray:3 3}.ranged .a{fill:var(--mute)}.ranged .l.ran{stroke:var(--line);stroke-width:1.3;stroke-dasharray:none}.ranged .a.ran{fill:var(--line)}
@media (min-width:1150px){.cols{display:grid;grid-template-columns:200px minmax(0,1fr);gap:32px}nav{position:sticky;top:0;align-self:start;max-height:100vh;overflow:auto;padding-bottom:20px}nav ul{columns:auto}}
:root{--okbg:#e3f3e7}@media (prefers-color-scheme:dark){:root{--okbg:#173022}}@media print{:root{--okbg:#e3f3e7}}
.differs{border-left:4px solid var(--link);padding:4px 10px}.part{margin:0 0 22px;scroll-margin-top:24px}h3 small{font-weight:400;color:var(--mute);font-size:12.5px}nav li.same a{color:var(--mute)}
summary{cursor:pointer;color:var(--mute);font-size:13.5px;padding:4px 0}summary:focus-visible{outline:2px solid var(--link);outline-offset:2px}
.diff{table-layout:fixed;max-width:1500px;margin:6px 0 0}.diff thead th:first-child{width:8em}
.diff i{font:11px/1.5 ui-monospace,\"DejaVu Sans Mono\",Menlo,Consolas,monospace;color:var(--mute);margin-right:4px}.diff :is(del,ins,code){font:12.5px/1.5 ui-monospace,\"DejaVu Sans Mono\",Menlo,Consolas,monospace;text-decoration:none;overflow-wrap:anywhere}.diff :is(del,ins){padding:1px 3px}.diff del{background:var(--badbg)}.diff ins{background:var(--okbg)}
.diff .same :is(th,code){color:var(--mute);font-weight:400}.diff .changed th{color:var(--link)}.diff .gone th{color:var(--bad)}.diff .new th{color:var(--ok)}
@media (max-width:899px){.diff,.diff :is(tbody,tr,td,tbody th){display:block;width:auto}.diff thead{position:absolute;left:-999px}.diff :is(td,tbody th){border:0;padding:1px 0}.diff td{padding-left:12px}.diff td:empty{display:none}.diff tr{border-bottom:1px solid var(--rule);padding:3px 0}}
@page{size:A4 portrait;margin:10mm 12mm}
@media print{:root{color-scheme:light;--bg:#fff;--fg:#000;--mute:#555;--rule:#bbb;--line:#333;--box:#fff;--boxl:#333;--dec:#fff6dc;--decl:#7a5900;--exe:#e8f1fc;--exel:#1d4f91;--term:#e9ecef;--link:#123f7c;--bad:#b00010;--badbg:#fde8e8;--ok:#1d7a3d;--ran:#5a2599;--head:#f0f0f0}body{padding:0;font-size:10pt}table{font-size:8.5pt}code,.num,td:nth-child(2),tbody th[scope=row],.tab span{font-size:8pt}nav ul{font-size:8.5pt}th,td{padding:1.5pt 8pt 1.5pt 0}.cols{display:block}.skip{display:none}#methods{display:block}#methods h2{margin-bottom:8px}.key+.key{margin-top:4px}tbody tr:first-child{break-after:avoid}.m{break-inside:avoid;margin-bottom:16px}.fig{zoom:.85;overflow:visible}.fig svg{max-width:100%}svg{break-inside:avoid}h2,h3,.key,.com,.by{break-after:avoid}tr{break-inside:avoid}ol.run{max-height:none;overflow:visible}.scroll,.run{overflow:visible}details:not([open]){display:none}.scroll table{min-width:0}a{text-decoration:none}}";
