//! Words and decimals.

use ieee_words::{
    WordFault, decimal, decimal_is_one, decimal_of_word_is_decimal, near, near_word_is_nearest,
    nearest_is_one, order_keeps_values, scale_is_one, scale_nano, word_order,
};

// Expected values by exact fractions, those of the last rows of a table by an independent reading of the standard.

/// The word nearest to `n / 10^k`, after `n` and `k`.
const NEAREST: [(i64, u32, u64); 55] = [
    (1, 2, 0x3F84_7AE1_47AE_147B),
    (1, 3, 0x3F50_624D_D2F1_A9FC),
    (1, 0, 0x3FF0_0000_0000_0000),
    (10, 1, 0x3FF0_0000_0000_0000),
    (0, 5, 0),
    (5, 2, 0x3FA9_9999_9999_999A),
    (-5, 2, 0xBFA9_9999_9999_999A),
    (1, 9, 0x3E11_2E0B_E826_D695),
    (-1, 9, 0xBE11_2E0B_E826_D695),
    (i64::MAX, 0, 0x43E0_0000_0000_0000),
    (i64::MIN, 0, 0xC3E0_0000_0000_0000),
    (i64::MAX, 9, 0x4201_2E0B_E826_D695),
    (i64::MIN, 9, 0xC201_2E0B_E826_D695),
    // ties, to the even fraction below and above
    (9_007_199_254_740_993, 0, 0x4340_0000_0000_0000),
    (9_007_199_254_740_995, 0, 0x4340_0000_0000_0002),
    (-9_007_199_254_740_993, 0, 0xC340_0000_0000_0000),
    // rows of an independent reading
    (-23, 0, 0xC037_0000_0000_0000),
    (14_620_085_442_163, 0, 0x42AA_9801_FFAC_E600),
    (-50_447_665_728_781_046, 0, 0xC366_673C_4F70_5F5F),
    (-9_193_125_040_040_494_359, 0, 0xC3DF_E522_A110_D731),
    (19, 1, 0x3FFE_6666_6666_6666),
    (-57, 1, 0xC016_CCCC_CCCC_CCCD),
    (7_807_277_021_925_649_905, 1, 0x43A5_AB67_6AD6_FD56),
    (-4_000_000_000_000_000_000, 1, 0xC396_3457_85D8_A000),
    (85, 2, 0x3FEB_3333_3333_3333),
    (-53, 2, 0xBFE0_F5C2_8F5C_28F6),
    (50_561_912_409, 2, 0x41BE_2322_B417_0A3D),
    (892_832_519_783_276_117, 2, 0x433F_B843_B3DB_2239),
    (-28, 3, 0xBF9C_AC08_3126_E979),
    (30, 3, 0x3F9E_B851_EB85_1EB8),
    (8_860_117_109_791_523_295, 3, 0x433F_7A3A_C4FF_5B23),
    (85_915_361_871_965_031, 3, 0x42D3_88EE_A802_1742),
    (-67, 4, 0xBF7B_7175_8E21_9653),
    (-88, 4, 0xBF82_05BC_01A3_6E2F),
    (-51_221_687_068_538_957, 4, 0xC292_A264_2F5C_9795),
    (521_185_946_200_323, 4, 0x4228_4505_4878_108A),
    (72, 5, 0x3F47_97CC_39FF_D60F),
    (93_723, 5, 0x3FED_FDC9_C4DA_9004),
    (-8_972_284_384_049_559_511, 5, 0xC2D4_668E_8F0F_FBE6),
    (-8, 6, 0xBEE0_C6F7_A0B5_ED8D),
    (12, 6, 0x3EE9_2A73_7110_E454),
    (-7_565_191_203_887_658_901, 6, 0xC29B_85A2_2330_BEA3),
    (8_295_221_565_567_967_846, 6, 0x429E_2D86_F061_FFDF),
    (-28, 7, 0xBEC7_7CF4_4765_195F),
    (95, 7, 0x3EE3_EC46_0ED8_0A18),
    (8_663_971_770_194, 7, 0x412A_70BA_5AA2_496C),
    (4_000_000_000_000_000_000, 7, 0x4257_4876_E800_0000),
    (37, 8, 0x3E98_D48D_3588_2223),
    (-76_700, 8, 0xBF49_220F_F540_895D),
    (302_078_533_250_629_026, 8, 0x41E6_81B0_D690_3388),
    (-8_323_134_378_312_566_048, 8, 0xC233_60F9_84A7_202B),
    (-76, 9, 0xBE74_66AE_23AE_1ED1),
    (-92, 9, 0xBE78_B231_1DB7_D476),
    (-7_998_753_305_804_020_496, 9, 0xC1FD_CC34_A19C_DD45),
    (4_552_961_318_764_468_278, 9, 0x41F0_F60A_D26C_3B43),
];

/// The word of a decimal with places that are taken.
fn word_of(n: i64, k: u32) -> Option<u64> {
    if k <= 9 { Some(near(n, k)) } else { None }
}

pub fn near_gives_the_nearest_word() -> bool {
    let mut right = true;
    for &(n, k, word) in &NEAREST {
        right &= word_of(n, k) == Some(word);
    }
    nearest_is_one();
    near_word_is_nearest();
    right
}

/// A word, and its nanounits and whether they are exact, or why it has none.
const DECIMALS: [(u64, Result<(i64, bool), WordFault>); 60] = [
    (0x3F84_7AE1_47AE_147B, Ok((10_000_000, true))),
    (0x3F84_7AE1_47AE_147A, Ok((10_000_000, false))),
    (0x3F84_7AE1_47AE_147C, Ok((10_000_000, false))),
    (0x3F50_624D_D2F1_A9FC, Ok((1_000_000, true))),
    (0x3F50_624D_D2F1_A9FB, Ok((1_000_000, false))),
    (0x3F50_624D_D2F1_A9FD, Ok((1_000_000, false))),
    (0x3E11_2E0B_E826_D695, Ok((1, true))),
    (0x3E11_2E0B_E826_D694, Ok((1, false))),
    (0x3E11_2E0B_E826_D696, Ok((1, false))),
    (0, Ok((0, true))),
    (0x8000_0000_0000_0000, Ok((0, false))),
    // subnormal
    (0x0000_0000_0000_0001, Ok((0, false))),
    (0x800F_FFFF_FFFF_FFFF, Ok((0, false))),
    // 2^-10, half way between two numbers of nanounits
    (0x3F50_0000_0000_0000, Ok((976_562, false))),
    (0x3F60_0000_0000_0000, Ok((1_953_125, true))),
    (0xBFA9_9999_9999_999A, Ok((-50_000_000, true))),
    (0x41CD_CD64_FFFF_FFF8, Ok((999_999_999_999_999_000, true))),
    (0x41CD_CD64_FFFF_FFFC, Ok((999_999_999_999_999_523, false))),
    (0xC1CD_CD64_FFFF_FFFF, Ok((-999_999_999_999_999_881, false))),
    (0x7FF0_0000_0000_0000, Err(WordFault::NotFinite)),
    (0xFFF0_0000_0000_0000, Err(WordFault::NotFinite)),
    (0x7FF8_0000_0000_0000, Err(WordFault::NotFinite)),
    (0xFFFF_FFFF_FFFF_FFFF, Err(WordFault::NotFinite)),
    (0x41CD_CD65_0000_0000, Err(WordFault::TooLarge)),
    (0xC1CD_CD65_0000_0000, Err(WordFault::TooLarge)),
    (0x7FEF_FFFF_FFFF_FFFF, Err(WordFault::TooLarge)),
    // rows of an independent reading
    (0x0010_0000_0000_0000, Ok((0, false))),
    (0x3D75_FEB7_4000_0000, Ok((0, false))),
    (0x3E3E_1094_D643_F783, Ok((7, false))),
    (0x3E60_E2DE_0000_0000, Ok((31, false))),
    (0xBE34_733C_7025_1600, Ok((-5, false))),
    (0x3E94_21F5_F40D_8376, Ok((300, true))),
    (0xBF30_0007_978E_0000, Ok((-244_142, false))),
    (0x3F01_8CF0_3DEB_1D1A, Ok((33_475, true))),
    (0x3F30_0000_0000_0000, Ok((244_141, false))),
    (0xBF4B_E030_56DF_E0A6, Ok((-850_700, true))),
    (0x3FEB_CB13_FD37_F997, Ok((868_539_805, true))),
    (0x3FF0_0000_0000_0001, Ok((1_000_000_000, false))),
    (0xBFF8_EE59_0E8F_0EFC, Ok((-1_558_190_400, true))),
    (0x4009_0000_0000_0000, Ok((3_125_000_000, true))),
    (0x4039_FFFF_FFFF_FFFF, Ok((26_000_000_000, false))),
    (0x407C_AD90_0000_0000, Ok((458_847_656_250, true))),
    (0xC0B0_033C_7AE6_0000, Ok((-4_099_236_250_281, false))),
    (0x40D7_AA80_0000_0001, Ok((24_234_000_000_000, false))),
    (0x40F7_5B10_8180_38ED, Ok((95_665_031_616_423, true))),
    (0xC100_00AF_0460_0000, Ok((-131_093_877_136_230, false))),
    (0x4110_0000_0001_3A00, Ok((262_144_000_004_679, false))),
    (0xC125_1BB3_F0D1_8724, Ok((-691_673_970_348_571, true))),
    (0x4185_6420_AFFF_FFFF, Ok((44_860_437_999_999_993, false))),
    (0xC18A_2989_CBC6_0FE4, Ok((-54_866_233_471_710_000, true))),
    (0x4193_36C2_1800_0001, Ok((80_588_934_000_000_015, false))),
    (0xC1B2_5400_0000_0000, Ok((-307_494_912_000_000_000, true))),
    (0xC1BE_B35A_DE7A_3D71, Ok((-515_070_686_477_500_000, true))),
    (0x9FD0_392A_65D9_2D9D, Ok((0, false))),
    (0x41FF_BC36_1BB3_74BC, Err(WordFault::TooLarge)),
    (0xC1E6_D5D0_C5A8_2D79, Err(WordFault::TooLarge)),
    (0x4265_5594_3677_A1BE, Err(WordFault::TooLarge)),
    (0xD18B_664C_9558_891C, Err(WordFault::TooLarge)),
    (0x7AAD_0908_6A67_B847, Err(WordFault::TooLarge)),
    (0xFC56_8C85_723A_BDB6, Err(WordFault::TooLarge)),
];

fn decimal_of(word: u64) -> Result<(i64, bool), WordFault> {
    let dec = decimal(word)?;
    Ok((dec.nano, dec.exact))
}

pub fn decimal_is_short_where_it_can_be() -> bool {
    let mut right = true;
    for &(word, wanted) in &DECIMALS {
        right &= decimal_of(word) == wanted;
    }
    decimal_is_one();
    decimal_of_word_is_decimal();
    right
}

/// A word and its order number.
const ORDERS: [(u64, u64); 44] = [
    (0xFFEF_FFFF_FFFF_FFFF, 0x0010_0000_0000_0000),
    (0xBFF0_0000_0000_0000, 0x400F_FFFF_FFFF_FFFF),
    (0x8000_0000_0000_0001, 0x7FFF_FFFF_FFFF_FFFE),
    (0x8000_0000_0000_0000, 0x7FFF_FFFF_FFFF_FFFF),
    // rows of an independent reading
    (0xFFF0_0000_0000_0000, 0x000F_FFFF_FFFF_FFFF),
    (0xD8AA_B393_1457_9C4E, 0x2755_4C6C_EBA8_63B1),
    (0xD12F_91B9_E9D3_1A40, 0x2ED0_6E46_162C_E5BF),
    (0xC308_97E3_1F49_95ED, 0x3CF7_681C_E0B6_6A12),
    (0xC236_2F83_5800_AF07, 0x3DC9_D07C_A7FF_50F8),
    (0xC1CD_CD65_0000_0000, 0x3E32_329A_FFFF_FFFF),
    (0xC18A_6912_5800_0000, 0x3E75_96ED_A7FF_FFFF),
    (0xC183_A0B2_1379_CF9A, 0x3E7C_5F4D_EC86_3065),
    (0xC153_EC08_5F40_4EA5, 0x3EAC_13F7_A0BF_B15A),
    (0xC0F1_138A_7EF9_DB23, 0x3F0E_EC75_8106_24DC),
    (0xBFD7_93D1_B360_0000, 0x4028_6C2E_4C9F_FFFF),
    (0xBF74_BEBB_BD05_03A0, 0x408B_4144_42FA_FC5F),
    (0xBF4D_29DC_725C_3DEE, 0x40B2_D623_8DA3_C211),
    (0xBEF2_0000_0000_0000, 0x410D_FFFF_FFFF_FFFF),
    (0xBEE3_70CB_1943_72F1, 0x411C_8F34_E6BC_8D0E),
    (0xBE80_0000_17F4_5148, 0x417F_FFFF_E80B_AEB7),
    (0x9E0F_5EB0_27A0_8A52, 0x61F0_A14F_D85F_75AD),
    (0x9D4E_E162_7205_1950, 0x62B1_1E9D_8DFA_E6AF),
    (0x9C96_9370_AC0D_AC41, 0x6369_6C8F_53F2_53BE),
    (0, 0x8000_0000_0000_0000),
    (1, 0x8000_0000_0000_0001),
    (0x000F_FFFF_FFFF_FFFF, 0x800F_FFFF_FFFF_FFFF),
    (0x0010_0000_0000_0000, 0x8010_0000_0000_0000),
    (0x1C6B_564A_B2DB_99EE, 0x9C6B_564A_B2DB_99EE),
    (0x2BC2_B7A3_84DE_ED73, 0xABC2_B7A3_84DE_ED73),
    (0x3D80_9E99_A20A_1610, 0xBD80_9E99_A20A_1610),
    (0x3F50_0000_0000_0000, 0xBF50_0000_0000_0000),
    (0x3FB1_1049_63CC_2D40, 0xBFB1_1049_63CC_2D40),
    (0x3FF0_0000_0000_0000, 0xBFF0_0000_0000_0000),
    (0x3FF0_0000_0000_0001, 0xBFF0_0000_0000_0001),
    (0x4001_9374_BC6A_7EFB, 0xC001_9374_BC6A_7EFB),
    (0x40F3_1B97_126E_978D, 0xC0F3_1B97_126E_978D),
    (0x4140_208A_ABF6_D34C, 0xC140_208A_ABF6_D34C),
    (0x4192_9D38_4ACC_CCCD, 0xC192_9D38_4ACC_CCCD),
    (0x41CD_CD65_0000_0000, 0xC1CD_CD65_0000_0000),
    (0x426A_8E24_45AD_899A, 0xC26A_8E24_45AD_899A),
    (0x7B87_222D_6383_F5C6, 0xFB87_222D_6383_F5C6),
    (0x7FEF_FFFF_FFFF_FFFF, 0xFFEF_FFFF_FFFF_FFFF),
    (0x7FF0_0000_0000_0000, 0xFFF0_0000_0000_0000),
    (0x7FF8_0000_0000_0000, 0xFFF8_0000_0000_0000),
];

pub fn word_order_grows_with_the_value() -> bool {
    let mut right = true;
    for &(word, order) in &ORDERS {
        right &= word_order(word) == order;
    }
    order_keeps_values();
    right
}

/// A word and the scale that it stands for.
const SCALES: [(u64, Option<i64>); 14] = [
    (0x3F84_7AE1_47AE_147B, Some(10_000_000)),
    (0x3F84_7AE1_47AE_147A, None),
    (0x3F84_7AE1_47AE_147C, None),
    (0x3E11_2E0B_E826_D695, Some(1)),
    (0x3E11_2E0B_E826_D694, None),
    (0x3FEF_FFFF_FF76_8FA1, Some(999_999_999)),
    (0x3FF0_0000_0000_0000, Some(1_000_000_000)),
    (0x3FF0_0000_0000_0001, None),
    // 2^-9 and 2^-10
    (0x3F60_0000_0000_0000, Some(1_953_125)),
    (0x3F50_0000_0000_0000, None),
    (0, None),
    (0x4000_0000_0000_0000, None),
    (0xBF84_7AE1_47AE_147B, None),
    (0x7FF0_0000_0000_0000, None),
];

pub fn scale_nano_takes_the_word_of_a_scale_alone() -> bool {
    let mut right = true;
    for &(word, nano) in &SCALES {
        right &= scale_nano(word) == nano;
    }
    scale_is_one();
    right
}
