/// How all looks, and the shapes that stand for how far a node is: a ring where it waits, a wedge
/// where it is in progress, a disc with a tick where it is completed, and a square with a cross
/// where it was aborted. What no spawn holds is white, and else it has one of eight colours.
pub const STYLE: &str = "<style>text{font:17px Verdana,'DejaVu Sans',sans-serif;fill:#111}\
    .b{font-weight:bold}.e{text-anchor:end}.n{font-size:18px}.s{font-size:15px}\
    .h{font-size:19px;fill:#555}.t{font-size:38px;font-weight:bold}\
    .u{font-size:24px;font-weight:bold}.o{stroke:#555;stroke-width:1.5}\
    .c0{fill:#f4f4f4}.c1{fill:#c9e78f}.c2{fill:#a5d8f7}\
    .c3{fill:#f9cf86}.c4{fill:#98e3c4}.c5{fill:#f1c4dd}.c6{fill:#f8ee96}\
    .c7{fill:#cdcbf9}.c8{fill:#f8bba9}</style><defs>\
    <g id='p0'><circle cx='10' cy='10' r='7.5' fill='#fff' stroke='#666' stroke-width='3'/></g>\
    <g id='p1'><path d='M2 1L19 10L2 19Z' fill='#1565c0'/></g>\
    <g id='p2'><circle cx='10' cy='10' r='9.5' fill='#2e7d32'/>\
    <path d='M5 10.5L9 14.5L15.5 6' fill='none' stroke='#fff' stroke-width='3'/></g>\
    <g id='p3'><rect x='1' y='1' width='18' height='18' fill='#b71c1c'/>\
    <path d='M5 5L15 15M15 5L5 15' fill='none' stroke='#fff' stroke-width='3'/></g></defs>";
