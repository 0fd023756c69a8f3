/// How a page looks: large on a wall, and one column on a small screen.
pub(crate) const STYLE: &str = "<style>body{font:18px Verdana,'DejaVu Sans',sans-serif;margin:0;\
    background:#fff;color:#111}header{background:#1f2d3a;color:#fff;padding:14px 28px}\
    h1{font-size:26px;margin:0 0 6px}h2{font-size:22px;margin:24px 28px 6px}\
    p{margin:4px 28px}header p{margin:0}.f{font-size:22px;font-weight:bold;margin-right:26px}\
    table{border-collapse:collapse;margin:0 28px;width:calc(100% - 56px)}\
    th{text-align:left;font-weight:normal;color:#555;border-bottom:2px solid #999}\
    th,td{padding:3px 14px 3px 0;vertical-align:top}td{border-bottom:1px solid #ddd}\
    td.n,th.n{text-align:right}tr.w td:first-child{border-left:8px solid #f0a000;padding-left:8px}\
    tr.r td:first-child{border-left:8px solid #b71c1c;padding-left:8px}\
    a{color:#0b57a4}header a{color:#fff}svg{display:block;width:100%;height:calc(100vh - 54px)}</style>";
