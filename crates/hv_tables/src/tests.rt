//! Values from the tables of H.265.
use super::*;

#[test]
fn quantisers_of_chroma(rt: HostRuntime) {
    for (qp, chroma) in [
        (0, 0),
        (29, 29),
        (30, 29),
        (34, 33),
        (35, 33),
        (43, 37),
        (44, 38),
        (51, 45),
    ] {
        assert_eq!(rt; chroma_qp(qp), chroma, "at {qp}");
    }
}

#[test]
fn factors(rt: HostRuntime) {
    assert_eq!(rt; level_scale(26), 51);
    assert_eq!(rt; level_scale(51), 57);
    assert_eq!(rt; quantisation_factor(26), 20560);
    assert_eq!(rt; quantisation_factor(5), 14564);
}

#[test]
fn rows_and_columns(rt: HostRuntime) {
    assert_eq!(rt;
        matrix_rows_4()[1].as_slice(),
        [83, 36, -36, -83].as_slice()
    );
    assert_eq!(rt;
        matrix_columns_4()[3].as_slice(),
        [64, -83, 64, -36].as_slice()
    );
    assert_eq!(rt; matrix_rows_8()[7][0], 18);
    assert_eq!(rt; matrix_columns_8()[0][7], 18);
    assert_eq!(rt; matrix_rows_16()[15][15], -9);
    assert_eq!(rt; matrix_columns_16()[15][15], -9);
    assert_eq!(rt; matrix_rows_32()[31][1], -13);
    assert_eq!(rt; matrix_columns_32()[1][31], -13);
}
