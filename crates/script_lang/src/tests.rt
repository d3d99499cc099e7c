use super::*;

#[test]
fn first_pieces(rt: HostRuntime) {
    let rows: [(&[u8], Piece, usize); 4] = [
        (b"x%y%!:/e.txt\n", Piece::Text { at: 0, len: 3 }, 3),
        (b"%!:/e.txt\nz", Piece::Include { at: 3, len: 6 }, 10),
        (
            b"%!  file-stats /a b\r\n",
            Piece::Call {
                function: Function::FileStats,
                at: 15,
                len: 2,
            },
            21,
        ),
        (
            b"%! ticks",
            Piece::Call {
                function: Function::Ticks,
                at: 0,
                len: 0,
            },
            8,
        ),
    ];
    for (text, piece, next) in rows {
        assert!(rt; next_piece(text, 0) == Some(Found { piece, next }));
    }
}
