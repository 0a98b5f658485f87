//! The styles and the legend of a picture: what is the same in each.

ghost use Rattle.std.specs.Prelude.{◌≡◌};
ghost use Rattle.pb_export.specs.Styles as styles;

/// The styles of a light picture, in which colours only repeat what words, edges and hatching say.
#[tactic(auto, unfolding(crate::specs::Styles::light))]
pub(crate) fn light() -> &'static [u8]
    ensures { result.now ≡ styles.light }
{
    b"<style>
text{font:11px Helvetica,Arial,sans-serif;fill:#1f2328;pointer-events:none}
.paper{fill:#fff}
.line rect{fill:#b7bfc8}
.scale rect{fill:#e6eaef}
.scale text{fill:#59636e}
.name text{font-size:12px;font-weight:bold;text-anchor:end}
.name tspan{fill:#59636e;font-weight:normal}
.token rect{fill:#ffe08a;stroke:#7d4e00;stroke-width:2px;rx:6px}
.request rect{fill:#cfe3ff;stroke:#0550ae}
.reply rect{fill:#d3f5d9;stroke:#116329;stroke-dasharray:4 2}
.ack rect{fill:#eadcff;stroke:#6639ba}
.other rect{fill:#eaeef2;stroke:#59636e}
.holder rect{fill:#fff4cf;stroke:#b08800}
.nobody rect{fill:none;stroke:#8c959f;stroke-dasharray:2 3}
.nobody text{fill:#59636e;font-style:italic}
.noise rect{fill:url(#grain);stroke:#8c959f}
.noise text,.hearer text,.step text{paint-order:stroke;stroke:#fff;stroke-width:3px}
.hatched rect,.hearer rect{fill:url(#hatch);stroke:#cf222e}
.hatched rect{opacity:.45}
.hearer text,.step text{font-size:10px}
.hearer text{fill:#a40e26}
.step rect{fill:#1f2328;stroke:none}
.grain{fill:none;stroke:#8c959f;stroke-width:2px}
.hatch{fill:none;stroke:#cf222e;stroke-width:1.5px}
"
}

/// The same in the dark.
#[tactic(auto, unfolding(crate::specs::Styles::dark))]
pub(crate) fn dark() -> &'static [u8]
    ensures { result.now ≡ styles.dark }
{
    b"@media (prefers-color-scheme:dark){
text{fill:#e6edf3}
.paper{fill:#0d1117}
.line rect{fill:#57606a}
.scale rect{fill:#21262d}
.scale text,.name tspan,.nobody text{fill:#9198a1}
.token rect{fill:#5a4300;stroke:#e3b341}
.request rect{fill:#0c2d6b;stroke:#79c0ff}
.reply rect{fill:#0f3d1c;stroke:#56d364}
.ack rect{fill:#3c1e70;stroke:#d2a8ff}
.other rect{fill:#30363d;stroke:#9198a1}
.holder rect{fill:#3a2d00;stroke:#bb8009}
.nobody rect{fill:none;stroke:#6e7681}
.noise rect{fill:url(#grain);stroke:#6e7681}
.noise text,.hearer text,.step text{stroke:#0d1117}
.hatched rect,.hearer rect{fill:url(#hatch);stroke:#ff7b72}
.hearer text{fill:#ff7b72}
.step rect{fill:#e6edf3}
.grain{stroke:#6e7681}
.hatch{stroke:#ff7b72}
}
</style>
"
}

/// The patterns of damage and of noise.
#[tactic(auto, unfolding(crate::specs::Styles::patterns))]
pub(crate) fn patterns() -> &'static [u8]
    ensures { result.now ≡ styles.patterns }
{
    b"<defs>
<pattern id=\"hatch\" width=\"6\" height=\"6\" patternUnits=\"userSpaceOnUse\" patternTransform=\"rotate(45)\"><path class=\"hatch\" d=\"M1 0v6\"/></pattern>
<pattern id=\"grain\" width=\"5\" height=\"5\" patternUnits=\"userSpaceOnUse\" patternTransform=\"rotate(-45)\"><path class=\"grain\" d=\"M1 0v5\"/></pattern>
</defs>
"
}

/// The legend, above the first strip.
#[tactic(auto, unfolding(crate::specs::Styles::legend))]
pub(crate) fn legend() -> &'static [u8]
    ensures { result.now ≡ styles.legend }
{
    b"<g class=\"token\"><rect x=\"131\" y=\"8\" width=\"44\" height=\"18\"/><text x=\"137\" y=\"21\">token</text></g>
<g class=\"request\"><rect x=\"187\" y=\"8\" width=\"54\" height=\"18\"/><text x=\"193\" y=\"21\">request</text></g>
<g class=\"reply\"><rect x=\"253\" y=\"8\" width=\"42\" height=\"18\"/><text x=\"259\" y=\"21\">reply</text></g>
<g class=\"ack\"><rect x=\"307\" y=\"8\" width=\"30\" height=\"18\"/><text x=\"313\" y=\"21\">ack</text></g>
<g class=\"hearer\"><rect x=\"357\" y=\"13\" width=\"30\" height=\"8\"/></g><text x=\"393\" y=\"21\">heard damaged, or not at all</text>
<g class=\"noise\"><rect x=\"553\" y=\"8\" width=\"30\" height=\"18\"/></g><text x=\"589\" y=\"21\">noise</text>
<text x=\"640\" y=\"21\">scale: bit times; holder: who has the token</text>
"
}

/// The legend of a capture.
#[tactic(auto, unfolding(crate::specs::Styles::capture_legend))]
pub(crate) fn capture_legend() -> &'static [u8]
    ensures { result.now ≡ styles.capture_legend }
{
    b"<g class=\"token\"><rect x=\"131\" y=\"8\" width=\"44\" height=\"18\"/><text x=\"137\" y=\"21\">token</text></g>
<g class=\"request\"><rect x=\"187\" y=\"8\" width=\"54\" height=\"18\"/><text x=\"193\" y=\"21\">request</text></g>
<g class=\"reply\"><rect x=\"253\" y=\"8\" width=\"42\" height=\"18\"/><text x=\"259\" y=\"21\">reply</text></g>
<g class=\"ack\"><rect x=\"307\" y=\"8\" width=\"30\" height=\"18\"/><text x=\"313\" y=\"21\">ack</text></g>
<g class=\"hearer\"><rect x=\"357\" y=\"13\" width=\"30\" height=\"8\"/></g><text x=\"393\" y=\"21\">damaged, or an alarm</text>
<text x=\"520\" y=\"21\">scale: bit times; holder: who may send tokens and requests, as far as the monitor knows</text>
"
}
