//! The front of the picture: colours, title, legend.

use crate::counts::Counts;
use crate::frame::{HEIGHT, LEFT, WIDTH};
use std::io;

/// The colours, on a light background and on a dark one.
const STYLE: &str =
    "<style>.back{fill:#fff}.ink{fill:#222}.line{stroke:#888;fill:none}.grid{stroke:#ddd;fill:none}\
    .taken{fill:#2a9d43}.late{fill:#9b4dca}.lost{fill:#d62728}.refused{fill:#e8801a}.damaged{fill:#a0622d}\
    .foreign{fill:#8a8a8a}.unit{fill:#2f6fde;fill-opacity:.65}.held{fill:#9aa7b5}\
    @media(prefers-color-scheme:dark){.back{fill:#161a1f}.ink{fill:#ddd}.grid{stroke:#30363d}}</style>";

/// Draws what is in front of the plots; the legend has the counts.
pub(crate) fn draw_front(rt: &HostRuntime, counts: &Counts) -> io::Result<()> {
    println!(*rt;
        "<svg xmlns=\"http://www.w3.org/2000/svg\" viewBox=\"0 0 {WIDTH} {HEIGHT}\" width=\"{WIDTH}\" \
         height=\"{HEIGHT}\" font-family=\"sans-serif\" font-size=\"12\">\n\
         <title>What a receiving stream took, held and handed out</title>\n{STYLE}\n\
         <rect class=\"back\" width=\"{WIDTH}\" height=\"{HEIGHT}\"/>\n\
         <text class=\"ink\" x=\"{LEFT}\" y=\"24\" font-size=\"16\">\
         What a receiving stream took, held and handed out</text>"
    )?;
    let entries = [
        ("taken", "taken in time", counts.in_time),
        ("late", "late", counts.late),
        ("lost", "lost", counts.lost),
        ("refused", "refused", counts.refused),
        ("damaged", "damaged", counts.damaged),
        ("foreign", "foreign", counts.foreign),
        ("unit", "units", counts.units),
        ("held", "held at the end", counts.held),
    ];
    let mut x = LEFT;
    for (class, name, count) in &entries {
        let beside = x.saturating_add(16);
        println!(*rt;
            "<rect class=\"{class}\" x=\"{x}\" y=\"40\" width=\"11\" height=\"11\"/>\
             <text class=\"ink\" x=\"{beside}\" y=\"50\">{name}: {count}</text>"
        )?;
        x = x.saturating_add(if name.len() > 8 { 150 } else { 105 });
    }
    Ok(())
}
