//! Laws that name each label and each constant.
//!
//! Written by scripts/make-sources from data/templates: change the text there, and not this file.

ghost use Rattle.std.specs.Prelude.{◌≡◌, Some, map, length, codes};
ghost use Rattle.enc_stream.specs.Labels.{label_pairs, encoding_of_label};
ghost use Rattle.enc_stream.specs.Names.{name_of};

use crate::constants::*;

/// There are 228 labels. Each names the one encoding that it is paired with.
pub fn labels_name_one_encoding()
    ensures count { length label_pairs ≡ 228 }
    ensures each { map (λ pair. encoding_of_label pair.0) label_pairs
        ≡ map (λ pair. Some pair.1) label_pairs }
{}

/// The second constant of each encoding is equal to the first.
pub fn second_constants_are_equal()
    ensures utf_8 { UTF_8_INIT ≡ UTF_8 }
    ensures ibm866 { IBM866_INIT ≡ IBM866 }
    ensures iso_8859_2 { ISO_8859_2_INIT ≡ ISO_8859_2 }
    ensures iso_8859_3 { ISO_8859_3_INIT ≡ ISO_8859_3 }
    ensures iso_8859_4 { ISO_8859_4_INIT ≡ ISO_8859_4 }
    ensures iso_8859_5 { ISO_8859_5_INIT ≡ ISO_8859_5 }
    ensures iso_8859_6 { ISO_8859_6_INIT ≡ ISO_8859_6 }
    ensures iso_8859_7 { ISO_8859_7_INIT ≡ ISO_8859_7 }
    ensures iso_8859_8 { ISO_8859_8_INIT ≡ ISO_8859_8 }
    ensures iso_8859_8_i { ISO_8859_8_I_INIT ≡ ISO_8859_8_I }
    ensures iso_8859_10 { ISO_8859_10_INIT ≡ ISO_8859_10 }
    ensures iso_8859_13 { ISO_8859_13_INIT ≡ ISO_8859_13 }
    ensures iso_8859_14 { ISO_8859_14_INIT ≡ ISO_8859_14 }
    ensures iso_8859_15 { ISO_8859_15_INIT ≡ ISO_8859_15 }
    ensures iso_8859_16 { ISO_8859_16_INIT ≡ ISO_8859_16 }
    ensures koi8_r { KOI8_R_INIT ≡ KOI8_R }
    ensures koi8_u { KOI8_U_INIT ≡ KOI8_U }
    ensures macintosh { MACINTOSH_INIT ≡ MACINTOSH }
    ensures windows_874 { WINDOWS_874_INIT ≡ WINDOWS_874 }
    ensures windows_1250 { WINDOWS_1250_INIT ≡ WINDOWS_1250 }
    ensures windows_1251 { WINDOWS_1251_INIT ≡ WINDOWS_1251 }
    ensures windows_1252 { WINDOWS_1252_INIT ≡ WINDOWS_1252 }
    ensures windows_1253 { WINDOWS_1253_INIT ≡ WINDOWS_1253 }
    ensures windows_1254 { WINDOWS_1254_INIT ≡ WINDOWS_1254 }
    ensures windows_1255 { WINDOWS_1255_INIT ≡ WINDOWS_1255 }
    ensures windows_1256 { WINDOWS_1256_INIT ≡ WINDOWS_1256 }
    ensures windows_1257 { WINDOWS_1257_INIT ≡ WINDOWS_1257 }
    ensures windows_1258 { WINDOWS_1258_INIT ≡ WINDOWS_1258 }
    ensures x_mac_cyrillic { X_MAC_CYRILLIC_INIT ≡ X_MAC_CYRILLIC }
    ensures gbk { GBK_INIT ≡ GBK }
    ensures gb18030 { GB18030_INIT ≡ GB18030 }
    ensures big5 { BIG5_INIT ≡ BIG5 }
    ensures euc_jp { EUC_JP_INIT ≡ EUC_JP }
    ensures iso_2022_jp { ISO_2022_JP_INIT ≡ ISO_2022_JP }
    ensures shift_jis { SHIFT_JIS_INIT ≡ SHIFT_JIS }
    ensures euc_kr { EUC_KR_INIT ≡ EUC_KR }
    ensures replacement { REPLACEMENT_INIT ≡ REPLACEMENT }
    ensures utf_16be { UTF_16BE_INIT ≡ UTF_16BE }
    ensures utf_16le { UTF_16LE_INIT ≡ UTF_16LE }
    ensures x_user_defined { X_USER_DEFINED_INIT ≡ X_USER_DEFINED }
{}

/// Each constant is the encoding of its name (Encoding Standard 4.2).
pub fn constants_have_their_names()
    ensures utf_8 { name_of UTF_8 ≡ codes "UTF-8" }
    ensures ibm866 { name_of IBM866 ≡ codes "IBM866" }
    ensures iso_8859_2 { name_of ISO_8859_2 ≡ codes "ISO-8859-2" }
    ensures iso_8859_3 { name_of ISO_8859_3 ≡ codes "ISO-8859-3" }
    ensures iso_8859_4 { name_of ISO_8859_4 ≡ codes "ISO-8859-4" }
    ensures iso_8859_5 { name_of ISO_8859_5 ≡ codes "ISO-8859-5" }
    ensures iso_8859_6 { name_of ISO_8859_6 ≡ codes "ISO-8859-6" }
    ensures iso_8859_7 { name_of ISO_8859_7 ≡ codes "ISO-8859-7" }
    ensures iso_8859_8 { name_of ISO_8859_8 ≡ codes "ISO-8859-8" }
    ensures iso_8859_8_i { name_of ISO_8859_8_I ≡ codes "ISO-8859-8-I" }
    ensures iso_8859_10 { name_of ISO_8859_10 ≡ codes "ISO-8859-10" }
    ensures iso_8859_13 { name_of ISO_8859_13 ≡ codes "ISO-8859-13" }
    ensures iso_8859_14 { name_of ISO_8859_14 ≡ codes "ISO-8859-14" }
    ensures iso_8859_15 { name_of ISO_8859_15 ≡ codes "ISO-8859-15" }
    ensures iso_8859_16 { name_of ISO_8859_16 ≡ codes "ISO-8859-16" }
    ensures koi8_r { name_of KOI8_R ≡ codes "KOI8-R" }
    ensures koi8_u { name_of KOI8_U ≡ codes "KOI8-U" }
    ensures macintosh { name_of MACINTOSH ≡ codes "macintosh" }
    ensures windows_874 { name_of WINDOWS_874 ≡ codes "windows-874" }
    ensures windows_1250 { name_of WINDOWS_1250 ≡ codes "windows-1250" }
    ensures windows_1251 { name_of WINDOWS_1251 ≡ codes "windows-1251" }
    ensures windows_1252 { name_of WINDOWS_1252 ≡ codes "windows-1252" }
    ensures windows_1253 { name_of WINDOWS_1253 ≡ codes "windows-1253" }
    ensures windows_1254 { name_of WINDOWS_1254 ≡ codes "windows-1254" }
    ensures windows_1255 { name_of WINDOWS_1255 ≡ codes "windows-1255" }
    ensures windows_1256 { name_of WINDOWS_1256 ≡ codes "windows-1256" }
    ensures windows_1257 { name_of WINDOWS_1257 ≡ codes "windows-1257" }
    ensures windows_1258 { name_of WINDOWS_1258 ≡ codes "windows-1258" }
    ensures x_mac_cyrillic { name_of X_MAC_CYRILLIC ≡ codes "x-mac-cyrillic" }
    ensures gbk { name_of GBK ≡ codes "GBK" }
    ensures gb18030 { name_of GB18030 ≡ codes "gb18030" }
    ensures big5 { name_of BIG5 ≡ codes "Big5" }
    ensures euc_jp { name_of EUC_JP ≡ codes "EUC-JP" }
    ensures iso_2022_jp { name_of ISO_2022_JP ≡ codes "ISO-2022-JP" }
    ensures shift_jis { name_of SHIFT_JIS ≡ codes "Shift_JIS" }
    ensures euc_kr { name_of EUC_KR ≡ codes "EUC-KR" }
    ensures replacement { name_of REPLACEMENT ≡ codes "replacement" }
    ensures utf_16be { name_of UTF_16BE ≡ codes "UTF-16BE" }
    ensures utf_16le { name_of UTF_16LE ≡ codes "UTF-16LE" }
    ensures x_user_defined { name_of X_USER_DEFINED ≡ codes "x-user-defined" }
{}
