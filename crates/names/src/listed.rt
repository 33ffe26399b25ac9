// The 150 attribute names that do not simply go to small letters, as they are written.
ghost use Rattle.std.specs.Prelude.{◌≡◌, true, ◌⊎◌, Some};
ghost use Rattle.field.specs.Bytes.{same};
ghost use Rattle.text.specs.Escape.{escape_html};
ghost use Rattle.names.specs.Names.{normalize_dom_attr_name};
ghost use Rattle.names.specs.Table.{by_mark, told, spelt};
ghost use Rattle.names.specs.declared.listed.Spelling.TheVariants.{Small};

use crate::table::{find_in, find_long, row_of};

// A form of 01: one constant table of all names, sorted by length and first letter; of one length and letter, those that become hyphenated stand
// first. The mark behind a name says what it becomes: 0 as it stands, 1 class, 2 for, 3 href, 4 panose-1, 5 a colon before each capital; any other a
// hyphen before each, and where they are, so that what lies between them is copied in runs: in its high digit how many letters stand before the
// first capital, in its low one how far behind that the second is, 0 where there is none.
const NAMES: [u8; 1977] = *b"\
    refX\x00refY\x00htmlFor\x02panose1\x04targetX\x00targetY\x00viewBox\x00xHeight\x10xmlBase\x05xmlLang\x05clipRule\x40clipPath\x40\
    calcMode\x00edgeMode\x00fillRule\x40fontSize\x40glyphRef\x00keyTimes\x00vertAdvY\x43vHanging\x10xmlSpace\x05capHeight\x30\
    className\x01fontStyle\x40glyphName\x50horizAdvX\x53httpEquiv\x40keyPoints\x00markerEnd\x60markerMid\x60maskUnits\x00\
    pointsAtX\x00pointsAtY\x00pointsAtZ\x00repeatDur\x00stopColor\x40xlinkHref\x03xlinkRole\x05xlinkShow\x05xlinkType\x05\
    arabicForm\x60fontFamily\x40fontWeight\x40floodColor\x50keySplines\x00numOctaves\x00paintOrder\x50pathLength\x00textAnchor\x40\
    textLength\x00unitsPerEm\x53xlink:href\x03xlinkTitle\x05zoomAndPan\x00baseProfile\x00fillOpacity\x40fontStretch\x40\
    fontVariant\x40filterUnits\x00markerStart\x60markerUnits\x00markerWidth\x00repeatCount\x00strokeWidth\x60stopOpacity\x40\
    startOffset\x00stitchTiles\x00tableValues\x00unicodeBidi\x70vertOriginX\x46vertOriginY\x46vAlphabetic\x10wordSpacing\x40\
    writingMode\x70accentHeight\x60allowReorder\x00colorProfile\x50floodOpacity\x50horizOriginX\x56horizOriginY\x56kernelMatrix\x00\
    lengthAdjust\x00markerHeight\x00patternUnits\x00spreadMethod\x00stdDeviation\x00surfaceScale\x00unicodeRange\x70vectorEffect\x60\
    xlinkActuate\x05xlinkArcrole\x05acceptCharset\x60attributeName\x00attributeType\x00baselineShift\x80baseFrequency\x00\
    clipPathUnits\x00gradientUnits\x00letterSpacing\x60lightingColor\x80pointerEvents\x70preserveAlpha\x00strokeLinecap\x60\
    strokeOpacity\x60textRendering\x40vMathematical\x10colorRendering\x50fontSizeAdjust\x44imageRendering\x50primitiveUnits\x00\
    referrerPolicy\x00strokeLinejoin\x60shapeRendering\x50systemLanguage\x00textDecoration\x40diffuseConstant\x00renderingIntent\x90\
    strokeDasharray\x60transformOrigin\x90contentStyleType\x75dominantBaseline\x80enableBackground\x60kernelUnitLength\x00\
    maskContentUnits\x00overlinePosition\x80patternTransform\x00requiredFeatures\x00strokeMiterlimit\x60strokeDashoffset\x60\
    specularConstant\x00specularExponent\x00xChannelSelector\x00yChannelSelector\x00alignmentBaseline\x90contentScriptType\x76\
    gradientTransform\x00limitingConeAngle\x00overlineThickness\x80underlinePosition\x90colorInterpolation\x50requiredExtensions\x00\
    underlineThickness\x90patternContentUnits\x00preserveAspectRatio\x00strikethroughPosition\xd0strikethroughThickness\xd0\
    dangerouslySetInnerHTML\x00glyphOrientationVertical\x5bcolorInterpolationFilters\x5dglyphOrientationHorizontal\x5b";

// Where the names of each length and first letter begin, 32 places a length.
const STARTS: [u16; 865] = [
    0, 0, 0, 0, 0, 0, 0, 0, 0, 0, 0, 0, 0, 0, 0, 0, 0, 0, 0, 0, 0, 0, 0, 0, 0, 0, 0, 0, 0, 0, 0, 0,
    0, 0, 0, 0, 0, 0, 0, 0, 0, 0, 0, 0, 0, 0, 0, 0, 0, 0, 0, 0, 0, 0, 0, 0, 0, 0, 0, 0, 0, 0, 0, 0,
    0, 0, 0, 0, 0, 0, 0, 0, 0, 0, 0, 0, 0, 0, 0, 0, 0, 0, 0, 0, 0, 0, 0, 0, 0, 0, 0, 0, 0, 0, 0, 0,
    0, 0, 0, 0, 0, 0, 0, 0, 0, 0, 0, 0, 0, 0, 0, 0, 0, 0, 0, 0, 0, 0, 0, 0, 0, 0, 0, 0, 0, 0, 0, 0,
    0, 0, 0, 0, 0, 0, 0, 0, 0, 0, 0, 0, 0, 0, 0, 0, 0, 0, 0, 10, 10, 10, 10, 10, 10, 10, 10, 10,
    10, 10, 10, 10, 10, 10, 10, 10, 10, 10, 10, 10, 10, 10, 10, 10, 10, 10, 10, 10, 10, 10, 10, 10,
    10, 10, 10, 10, 10, 10, 10, 10, 10, 10, 10, 10, 10, 10, 10, 10, 10, 10, 10, 10, 10, 10, 10, 10,
    10, 10, 10, 10, 10, 10, 10, 10, 10, 10, 10, 10, 10, 10, 10, 10, 10, 10, 10, 10, 10, 10, 10, 10,
    10, 10, 10, 10, 10, 18, 18, 18, 18, 18, 18, 18, 18, 26, 26, 26, 26, 42, 42, 50, 50, 74, 74, 74,
    74, 74, 74, 74, 74, 74, 74, 74, 101, 101, 110, 128, 137, 137, 137, 137, 146, 146, 146, 146,
    146, 146, 146, 146, 146, 146, 146, 164, 164, 173, 173, 173, 173, 173, 173, 173, 173, 173, 173,
    173, 193, 193, 193, 203, 213, 233, 233, 233, 243, 243, 273, 273, 273, 303, 303, 313, 323, 323,
    323, 323, 323, 363, 363, 363, 363, 363, 363, 363, 363, 363, 374, 374, 374, 374, 374, 407, 407,
    407, 407, 407, 418, 418, 418, 429, 429, 451, 451, 451, 451, 473, 484, 484, 484, 506, 506, 517,
    517, 517, 517, 517, 517, 517, 517, 529, 529, 529, 529, 577, 577, 577, 577, 577, 577, 577, 613,
    613, 613, 613, 613, 625, 673, 685, 697, 733, 757, 757, 757, 757, 757, 757, 757, 757, 757, 757,
    783, 783, 796, 796, 796, 809, 809, 835, 835, 835, 848, 861, 874, 874, 874, 887, 887, 887, 926,
    926, 939, 952, 952, 978, 978, 978, 978, 978, 978, 978, 978, 978, 1020, 1048, 1062, 1062, 1062,
    1062, 1076, 1076, 1076, 1076, 1076, 1104, 1104, 1104, 1104, 1132, 1132, 1132, 1160, 1174, 1174,
    1188, 1188, 1188, 1188, 1188, 1188, 1188, 1188, 1188, 1188, 1188, 1188, 1188, 1203, 1203, 1203,
    1218, 1218, 1218, 1233, 1233, 1233, 1233, 1233, 1233, 1233, 1248, 1248, 1263, 1308, 1323, 1323,
    1323, 1323, 1323, 1323, 1323, 1323, 1323, 1323, 1323, 1323, 1323, 1323, 1323, 1323, 1339, 1339,
    1339, 1339, 1339, 1339, 1339, 1339, 1339, 1339, 1339, 1339, 1339, 1339, 1355, 1371, 1387, 1387,
    1387, 1387, 1387, 1387, 1387, 1387, 1387, 1387, 1387, 1387, 1387, 1387, 1387, 1404, 1421, 1438,
    1438, 1438, 1438, 1438, 1438, 1455, 1455, 1472, 1472, 1489, 1506, 1506, 1523, 1591, 1591, 1591,
    1591, 1591, 1608, 1625, 1625, 1625, 1625, 1625, 1625, 1625, 1625, 1643, 1643, 1661, 1661, 1661,
    1661, 1679, 1679, 1679, 1679, 1679, 1697, 1697, 1697, 1715, 1715, 1715, 1715, 1715, 1715, 1733,
    1733, 1733, 1733, 1733, 1733, 1733, 1733, 1733, 1733, 1733, 1733, 1733, 1733, 1752, 1752, 1752,
    1752, 1752, 1752, 1752, 1752, 1752, 1752, 1752, 1752, 1752, 1752, 1752, 1771, 1771, 1771, 1790,
    1790, 1790, 1790, 1790, 1790, 1790, 1790, 1790, 1790, 1790, 1790, 1790, 1790, 1790, 1790, 1790,
    1790, 1790, 1790, 1790, 1790, 1790, 1790, 1790, 1790, 1790, 1830, 1830, 1830, 1830, 1830, 1830,
    1830, 1830, 1830, 1830, 1830, 1830, 1830, 1830, 1830, 1830, 1830, 1830, 1830, 1830, 1830, 1830,
    1830, 1830, 1830, 1830, 1830, 1830, 1830, 1830, 1830, 1830, 1830, 1830, 1830, 1830, 1830, 1830,
    1830, 1830, 1830, 1830, 1830, 1830, 1830, 1830, 1830, 1830, 1830, 1830, 1830, 1830, 1830, 1830,
    1830, 1830, 1830, 1830, 1830, 1830, 1830, 1830, 1830, 1830, 1830, 1830, 1830, 1852, 1852, 1852,
    1852, 1852, 1852, 1852, 1852, 1852, 1852, 1852, 1852, 1852, 1852, 1852, 1852, 1852, 1852, 1852,
    1852, 1852, 1852, 1852, 1852, 1852, 1852, 1852, 1852, 1852, 1852, 1852, 1852, 1875, 1875, 1875,
    1875, 1875, 1875, 1875, 1875, 1875, 1875, 1875, 1875, 1875, 1875, 1875, 1875, 1875, 1899, 1899,
    1899, 1899, 1899, 1899, 1899, 1899, 1899, 1899, 1899, 1899, 1899, 1899, 1899, 1899, 1899, 1899,
    1899, 1899, 1899, 1899, 1899, 1899, 1899, 1899, 1899, 1899, 1899, 1899, 1899, 1899, 1899, 1899,
    1899, 1924, 1924, 1924, 1924, 1924, 1924, 1924, 1924, 1924, 1924, 1924, 1924, 1924, 1924, 1924,
    1924, 1924, 1924, 1924, 1924, 1924, 1924, 1924, 1924, 1924, 1924, 1924, 1924, 1950, 1950, 1950,
    1950, 1950, 1950, 1950, 1950, 1950, 1950, 1950, 1950, 1950, 1950, 1950, 1950, 1950, 1950, 1950,
    1950, 1950, 1950, 1950, 1950, 1950, 1950, 1950, 1950, 1950, 1950, 1950, 1950, 1950, 1950, 1950,
    1950, 1977, 1977, 1977, 1977, 1977, 1977, 1977, 1977, 1977, 1977, 1977, 1977, 1977, 1977, 1977,
    1977, 1977, 1977, 1977, 1977, 1977, 1977, 1977, 1977, 1977,
];

// No name of the table is longer.
const MOST: usize = 26;

// What the table says of a name, where it has it. Borrowed and not copied, the table stays in read-only memory.
pub fn find_mark(name: &[u8]) -> Option<u8>
    ensures { (by_mark result name.now ≡ normalize_dom_attr_name name.now) × (told result name.now ≡ true) }
{
    let [first, ..] = name else {
        return None;
    };
    let n = name.len();
    if MOST < n {
        return None;
    }
    let row = row_of(&NAMES, &STARTS, n * 32 + usize::from(first % 32));
    if n < 8 {
        find_in(row, name, false)
    } else {
        find_long(row, name)
    }
}

// What a name is spelled from in HTML.
#[derive(Clone, Copy)]
pub enum Spelling<'a> {
    // these bytes, as they stand
    Whole(&'a [u8]),
    // the name, each capital as this sign and its small letter
    Signed(u8),
    // the name in small letters: the table does not have it
    Small,
}

#[tactic(auto, using(crate::proofs::MarkLaws::mark_other), unfolding(crate::specs::Table::by_mark, crate::specs::Table::spelt))]
pub fn spelling_by<'a>(mark: u8, name: &'a [u8]) -> Spelling<'a>
    ensures { spelt result name.now ≡ by_mark (Some mark) name.now }
{
    match mark {
        0 => Spelling::Whole(name),
        1 => Spelling::Whole(b"class"),
        2 => Spelling::Whole(b"for"),
        3 => Spelling::Whole(b"href"),
        4 => Spelling::Whole(b"panose-1"),
        5 => Spelling::Signed(b':'),
        _ => Spelling::Signed(b'-'),
    }
}

#[tactic(auto, using(crate::proofs::MarkLaws::told_some), unfolding(crate::specs::Table::by_mark, crate::specs::Table::spelt))]
pub fn spelling_of<'a>(name: &'a [u8]) -> Spelling<'a>
    ensures { (spelt result name.now ≡ normalize_dom_attr_name name.now) × ((result ≡ Small) ⊎ (same name.now (escape_html name.now) ≡ true)) }
{
    match find_mark(name) {
        None => Spelling::Small,
        Some(mark) => spelling_by(mark, name),
    }
}
