// The image of the example site in examples/site, which examples/image.py writes and compares.
pub const IMAGE: &[u8] = b"\
UIPSITE1\x00\x06\x0b/index.html\x00\x00\x02\x0e<!DOCTYPE html>\n\
<html lang=\"en\">\n\
<head><meta name=\"viewport\" content=\"width=device-width\"><title>Lowunbisa</title><link rel=\"sty\
lesheet\" href=\"/style.css\"></head>\n\
<body>\n\
<h1><img src=\"/logo.png\" alt=\"\"> Lowunbisa</h1>\n\
<p>A web server, in the room of one packet, proved.</p>\n\
<ul>\n\
<li><a href=\"/stats.shtml\">What it counts</a></li>\n\
<li><a href=\"/style.css\">The style of these pages</a></li>\n\
<li><a href=\"/logo.png\">The picture</a></li>\n\
<li><a href=\"/404.html\">The page for a name that no file has</a></li>\n\
</ul>\n\
</body>\n\
</html>\n\
\x0c/stats.shtml\x00\x00\x02,<!DOCTYPE html>\n\
<html>\n\
<head><title>What it counts</title><link rel=\"stylesheet\" href=\"/style.css\"></head>\n\
<body>\n\
<h1>What it counts</h1>\n\
<p>Half seconds since the start: %! ticks\n\
</p>\n\
<p>The start page was asked for %! file-stats /index.html\n\
\x20times, and this page %! file-stats /stats.shtml\n\
\x20times.</p>\n\
<h2>Connections</h2>\n\
<table>\n\
<tr><th>Slot</th><th>Peer</th><th>State</th><th>Tries</th><th>Count</th><th>Waiting</th></tr>\n\
%! tcp-connections\n\
</table>\n\
<h2>Datagrams, by what became of them</h2>\n\
<pre>\n\
%! net-stats\n\
</pre>\n\
%!:/footer.html\n\
</body>\n\
</html>\n\
\x0c/footer.html\x00\x00\x00*<p class=\"foot\"><a href=\"/\">Start</a></p>\n\n\
/style.css\x00\x00\x01)body { max-width: 38em; margin: 0 auto; padding: 1.5em; font: 1em/1.6 system-\
ui, sans-serif; color: #142c24; }\n\
a { color: #0b6e58; }\n\
h1 img { height: 0.9em; }\n\
table { border-collapse: collapse; }\n\
td, th { border: 1px solid #cdd8d4; padding: 0.2em 0.7em; }\n\
.foot { border-top: 1px solid #cdd8d4; }\n\
\x09/logo.png\x00\x00\x00\xf0\x89PNG\x0d\n\
\x1a\n\
\x00\x00\x00\x0dIHDR\x00\x00\x00 \x00\x00\x00 \x02\x03\x00\x00\x00\x0e\x14\x92g\x00\x00\x00\x0cPLTE\
\xff\xff\xff\xb0\xc4\xbc4t`\x14,$\x1fS\xde\xad\x00\x00\x00\x9fIDATx\xdaM\xd0\xb1\x0d\x830\x10\x05\
\xd0\xa3\x80\x0d\x92m\"1\x82\x8b|\"\xd1\xd0;+D\xf2\n\
)\xc2\x08\x14\xbe\xcc\xc3\x10IOi\x89\x7f8&\\\xe3'\xdd\x97\xado\x91\xc3\x00\xf9<\x01\xd7\x0d\x9d\xeah\
g\xedU\xa3#.\xca\xb1]0L\xc4\xf0\x05\x0c\xd5}\x01\xfa\xd8J\xad\x09\xe8\xd4\x11\x01\xdc9it\x98\x89\xa7\
\x9c\xe3\x8d!\xff\"\x90\n\
B\x01C\x19\x0ce0\xf4C(\x18f\xa2Q0\xc4\x0bk\x02i{kd\x88\xa8\xfc\xc4\xd0\xa7\x15\xe9\xb9{/b\xe0$\xabex\
\x1c\xeb\xec\x05\xff\x95\xf7O\xc8\xb3\x02\xe4\xfdZ\xd3\x97\\\xd25\x00\x00\x00\x00IEND\xaeB`\x82\x09/\
404.html\x00\x00\x00\xcf<!DOCTYPE html>\n\
<html>\n\
<head><title>No such page</title><link rel=\"stylesheet\" href=\"/style.css\"></head>\n\
<body>\n\
<h1>No such page</h1>\n\
<p>No file here has that name. <a href=\"/\">Start</a></p>\n\
</body>\n\
</html>\n";
