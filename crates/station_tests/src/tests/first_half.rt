//! The first fifty sequences of message cycles.

/// Fifty sequences of requests and replies. Each begins with the line of its stations.
pub const FIRST_HALF: &str = "stations 126 3 7 -
request 7 sdn high 74b999cc85f190ac a2077e4674b999cc85f190ac0f16
hears 1 a2077e4674b999cc85f190ac0f16 - 1
outcome 680404687e0535702816 none
outcome - none
request 127 sdn high - 107f7e464316
hears 1 107f7e464316 - 2
outcome 107e053dc016 none
outcome - none
stations 2 2 7 01
request 7 sdn low - 100702444d16
hears 0 100702444d16 - 1
outcome - none
request 7 sdn high 916bee7957ce4f5d a2070246916bee7957ce4f5d8316
hears 0 680505680702698f272816 100207000916 1
again -
outcome - none
request 0 srd high 6fb254d01c75f7a0 a200026d6fb254d01c75f7a0dc16
outcome - noanswer
request 0 sdn low - 100002444616
hears 0 100002444616 - 1
outcome - none
outcome - none
stations 17 0 7 -
request 7 sda high 03 68040468071165038016
hears 0 68040468071165038016 e5 1
outcome e5 acked
request 7 srd low 02 6804046807115c027616
hears 0 6804046807115c027616 101107092116 2
outcome 101107092116 acked
again -
outcome 101107092116 none
request 0 srd high - 1000116d7e16
hears 0 1000116d7e16 - 2
outcome - noanswer
request 0 sda low 69 6804046800116369dd16
hears 0 6804046800116369dd16 - 2
outcome dc0605 none
outcome - noanswer
stations 126 5 7 0001020304050607
request 7 srd low - 10077e6cf116
hears 2 10077e6cf116 a27e07280001020304050607c916 1
outcome - noanswer
request 7 sda low - 10077e63e816
hears 2 10077e63e816 e5 2
hears 2 107f095ce416 - 2
outcome dc0506 none
outcome - noanswer
request 7 sda high - 10077e65ea16
hears 2 10077e65ea16 e5 3
again 10077e65ea16
outcome e5 acked
request 7 srd high - 10077e5de216
hears 2 10077e5de216 a27e072a0001020304050607cb16 4
outcome e5 acked
outcome a27e072a0001020304050607cb16 none
outcome - none
stations 2 2 7 01
request 127 sdn low c39bc88c09ff175a7d 680c0c687f0244c39bc88c09ff175a7d6d16
hears 0 680c0c687f0244c39bc88c09ff175a7d6d16 - 1
outcome a20202157b1bab0189b29a93c316 none
hears 0 6805056807025bed83d416 - 1
outcome - none
request 0 srd high - 1000026d6f16
hears 0 1000026d6f16 - 1
outcome - noanswer
outcome - none
stations 2 2 7 0001020304050607
request 0 srd high d474 6805056800026dd474b716
outcome - noanswer
request 127 sdn high - 107f0246c716
hears 0 107f0246c716 - 1
outcome 6805056802052af4badf16 none
outcome - none
stations 17 4 7 0001020304050607
request 7 sda low 0d05f734b72f11ef a20711630d05f734b72f11ef9e16
outcome 680b0b6807051f13e0393bf0bdcb7f8916 none
outcome - noanswer
request 7 sda low 64 6804046807116364df16
outcome 100707273516 none
outcome - noanswer
stations 0 0 7 aabb
request 7 srd high - 1007006d7416
hears 0 1007006d7416 6805056800070aaabb7616 1
outcome - noanswer
request 7 sda low 685adc498aee432224 680c0c68070063685adc498aee4322245216
outcome 1000070e1516 none
outcome - noanswer
outcome - none
request 7 sda low fc948253e1f143092d 680c0c68070063fc948253e1f143092d1a16
hears 0 680c0c68070063fc948253e1f143092d1a16 e5 2
outcome 680b0b680007220bd23f4007b885501916 noresource
outcome e5 none
request 7 srd low 78 6804046807005c78db16
hears 0 6804046807005c78db16 68050568000708aabb7416 3
again -
outcome 68050568000708aabb7416 data:aabb
outcome 68050568000708aabb7416 none
stations 2 2 7 01
request 7 sdn high - 100702464f16
hears 3 100702464f16 - 1
outcome 10028764ed16 none
outcome 680c0c6802073c6b0e4634444ef228b09416 none
request 127 sdn high - 107f0246c716
hears 3 107f0246c716 - 2
outcome - none
stations 0 0 7 aabb
request 126 srd high - 107e006deb16
hears 0 107e006deb16 - 0
outcome - noanswer
request 7 sda high 93 6804046807006593ff16
hears 0 6804046807006593ff16 e5 1
outcome 6804046807077966ed16 none
outcome 680404687f07053ac516 none
outcome e5 acked
stations 126 2 7 0001020304050607
request 7 srd high - 10077e6df216
again 10077e6df216
hears 0 10077e6df216 a27e070a0001020304050607ab16 1
hears 0 680c0c68097e55a2d8971e28b5b9f55ff516 - 1
outcome a27e070a0001020304050607ab16 data:0001020304050607
request 127 sdn low 62 680404687f7e4462a316
outcome 680c0c687f05636b4ae9e7e5338025e20b16 none
outcome - none
stations 2 1 7 -
request 7 sdn low - 100702444d16
hears 0 100702444d16 - 1
outcome 6804046802070bdef216 none
outcome - none
request 127 sdn low - 107f0244c516
hears 0 680404680702657deb16 e5 2
outcome - none
stations 1 4 7 01
request 127 sdn low - 107f0144c416
hears 3 107f0144c416 - 1
hears 3 6804046809815da88f16 - 1
outcome 680b0b687f05133b8de9a533a7b2a82116 none
outcome - none
request 7 srd high - 1007016d7516
hears 3 1007016d7516 6804046801073a014316 2
outcome 6804046801073a014316 data:01
request 0 sda high - 100001656616
hears 3 100001656616 - 2
again 100001656616
outcome 1081003bbc16 none
outcome - noanswer
request 7 sdn low c474 68050568070144c4748416
outcome - none
stations 2 1 7 -
request 127 sdn low 96d10429c4317072 a27f024496d10429c43170723016
outcome 1082052cb316 none
outcome - none
request 7 sdn high - 100702464f16
hears 1 100702464f16 - 1
again -
outcome - none
stations 126 2 7 -
request 127 sdn low a0336ba176b58fcd a27f7e44a0336ba176b58fcda716
outcome a27e050b0cf50657c1b50b7ae716 none
outcome - none
request 0 srd low 5a6c674c0f2377f1 a2007e6c5a6c674c0f2377f1fd16
hears 0 a2007e6c5a6c674c0f2377f1fd16 - 0
outcome 107e001c9a16 data:
again -
outcome - none
stations 1 3 7 c2912846345980a0
request 0 sda high c470c88d300da97db7 680c0c68000165c470c88d300da97db70916
hears 2 680c0c68000165c470c88d300da97db70916 - 0
outcome - noanswer
request 7 srd high 53 6804046807016d53c816
hears 2 6804046807016d53c816 a201072ac2912846345980a0a016 1
outcome a201072ac2912846345980a0a016 data:c2912846345980a0
outcome a201072ac2912846345980a0a016 none
stations 0 0 7 0001020304050607
request 7 srd high c3cff27fa389e63d a207006dc3cff27fa389e63dc616
hears 3 a207006dc3cff27fa389e63dc616 a200073a00010203040506075d16 1
request 126 srd high 802cc7da0f72a90271 680c0c687e006d802cc7da0f72a90271d516
outcome 6804046800053899d616 none
outcome - noanswer
stations 17 2 7 aabb
request 7 srd high 68ba6f6365cab2d4 a207116d68ba6f6365cab2d42e16
hears 0 a207116d68ba6f6365cab2d42e16 6805056811070aaabb8716 1
outcome 10911120c216 none
outcome 6805056811070aaabb8716 data:aabb
outcome - none
request 127 sdn low - 107f1144d416
outcome 1011052e4416 none
outcome 6805056811051d5bbb4916 none
outcome - none
stations 0 5 7 01
request 126 srd high - 107e006deb16
hears 1 107e006deb16 - 0
outcome 10007e50ce16 none
outcome - noanswer
request 7 srd high - 1007006d7416
hears 1 1007006d7416 6804046800071a012216 1
outcome 6804046800071a012216 data:01
request 126 sda high - 107e0065e316
outcome - noanswer
request 7 sda low 96d5cbdae45533d4 a207005396d5cbdae45533d4aa16
hears 1 a207005396d5cbdae45533d4aa16 e5 2
again a207005396d5cbdae45533d4aa16
hears 1 a207005396d5cbdae45533d4aa16 e5 2
outcome e5 acked
stations 2 0 7 -
request 0 srd low d123 6805056800026cd1236216
again -
request 127 sdn low - 107f0244c516
hears 2 107f0244c516 - 1
outcome - none
request 127 sdn low 45ca 680505687f024445cad416
hears 2 680505687f024445cad416 - 2
hears 2 10098269f416 - 2
outcome - none
stations 0 1 7 aabb
request 7 sdn low 7c714d77c2b4a1d6da 680c0c680700447c714d77c2b4a1d6dac316
hears 2 680c0c680700447c714d77c2b4a1d6dac316 - 1
outcome 100007323916 none
outcome - none
request 126 sdn low 54b57b601f5992fb a27e004454b57b601f5992fbab16
hears 2 a27e004454b57b601f5992fbab16 - 1
outcome 680c0c687e7e2eb37745e04f913cee22a516 none
outcome - none
request 127 sdn low e1 680404687f0044e1a416
hears 2 680404687f0044e1a416 - 2
outcome - none
outcome - none
outcome - none
request 126 sda high 0560f9ddc1aa28b456 680c0c687e00650560f9ddc1aa28b456bb16
hears 2 680c0c687e00650560f9ddc1aa28b456bb16 - 2
outcome 1000050b1016 none
outcome - noanswer
stations 126 7 7 4642
request 7 srd low 28 68040468077e6c281916
hears 3 68040468077e6c281916 680505687e073846424516 1
outcome 680404687f070437c116 none
outcome - noanswer
request 7 srd low d403 68050568077e6cd403c816
hears 3 68050568077e6cd403c816 680505687e073846424516 2
outcome 680505687e073846424516 data:4642
stations 2 2 7 01
request 127 sdn low - 107f0244c516
outcome - none
request 7 srd low 3f4754b9392ff85743 680c0c6807026c3f4754b9392ff857430216
hears 3 680c0c6807026c3f4754b9392ff857430216 68040468020738014216 1
again 680c0c6807026c3f4754b9392ff857430216
outcome 100207384116 data:
outcome 68040468020738014216 none
request 7 srd high - 1007025d6616
hears 3 1007025d6616 6804046802073a014416 2
outcome 6804046802073a014416 data:01
stations 126 2 7 0001020304050607
request 7 sdn low - 10077e44c916
hears 1 10077e44c916 - 1
outcome 680404687e072db96b16 none
outcome - none
request 127 sdn high 090b 680505687f7e46090b5716
hears 1 680505687f7e46090b5716 - 2
outcome a2fe0533be55f3c9539c358eb716 none
hears 1 68040468870953a28516 100907132316 3
outcome - none
request 127 sdn low 42a891eccf6233e4 a27f7e4442a891eccf6233e4f016
hears 1 a27f7e4442a891eccf6233e4f016 - 4
outcome 107e05058816 none
outcome - none
stations 17 2 7 01
request 0 srd high 34 6804046800116d34b216
again 6804046800116d34b216
hears 0 6804046800116d34b216 - 0
outcome 107f002dac16 none
outcome - noanswer
request 7 srd high - 1007116d8516
hears 0 1007116d8516 6804046811070a012316 1
hears 0 6804046807114592ef16 e5 2
outcome 6804046811070a012316 data:01
request 7 sdn high 7a58f5ba0990151e a20711467a58f5ba0990151eab16
hears 0 a20711467a58f5ba0990151eab16 - 3
request 127 sdn low - 107f1144d416
hears 0 107f1144d416 - 4
again -
stations 2 0 7 dc0cb707da3eff4969
request 7 sda high 5e 680404680702655ecc16
hears 0 680404680702655ecc16 e5 1
outcome 6804046802072978aa16 acked
outcome 1002073d4616 none
outcome e5 none
request 7 sdn low 8abe 680505680702448abe9516
hears 0 680505680702448abe9516 - 2
outcome 100207293216 none
stations 2 0 7 aabb
request 7 srd high - 1007026d7616
outcome - noanswer
request 7 srd high - 1007026d7616
hears 2 1007026d7616 6805056802072aaabb9816 1
stations 1 3 7 a678
request 7 sda high - 100701656d16
hears 1 100701656d16 e5 1
outcome e5 acked
outcome - none
request 0 sdn high 1b77f96c368535bb a20001461b77f96c368535bbe916
hears 1 a20001461b77f96c368535bbe916 - 1
hears 1 1007016a7216 - 1
outcome - none
stations 2 2 7 aabb
request 7 sda low a2e2 68050568070263a2e2f016
hears 2 68050568070263a2e2f016 e5 1
outcome e5 acked
outcome 68040468020504e2ed16 none
outcome - none
request 7 srd low 3aa2 6805056807025c3aa24116
hears 2 6805056807025c3aa24116 68050568020728aabb9616 2
outcome 68050568020728aabb9616 data:aabb
stations 2 2 7 01
request 7 srd low f3e1 6805056807026cf3e14916
hears 0 6805056807026cf3e14916 68040468020708011216 1
outcome 68040468020708011216 data:01
request 7 sda low 82aa 6805056807025382aa8816
hears 0 6805056807025382aa8816 e5 2
outcome e5 acked
outcome e5 none
request 7 srd high 57 6804046807027d57dd16
hears 0 6804046807027d57dd16 6804046802070a011416 3
again 6804046807027d57dd16
hears 0 6804046807027d57dd16 6804046802070a011416 3
outcome - noanswer
request 7 sda low - 100702636c16
hears 0 100702636c16 e5 4
again 100702636c16
outcome e5 acked
stations 17 4 7 -
request 7 sdn low e5d5 68050568071144e5d51616
hears 2 68050568071144e5d51616 - 1
again -
outcome - none
request 0 sda low a7f9 68050568001163a7f91416
hears 2 68050568001163a7f91416 - 1
hears 2 100709798916 100907203016 1
again 68050568001163a7f91416
hears 2 68050568001163a7f91416 - 1
outcome - noanswer
stations 0 1 7 01
request 126 srd low 48 680404687e006c483216
hears 1 680404687e006c483216 - 0
outcome 6804046800fe40da1816 none
outcome - noanswer
request 7 sda high 411c4539c9a31866e1 680c0c68070065411c4539c9a31866e11216
hears 1 680c0c68070065411c4539c9a31866e11216 e5 1
again 680c0c68070065411c4539c9a31866e11216
hears 1 680c0c68070065411c4539c9a31866e11216 e5 2
outcome e5 acked
stations 2 2 7 aabb
request 127 sdn low - 107f0244c516
hears 1 107f0244c516 - 1
outcome 68040468820530cd8416 none
outcome 680c0c68020511e53cf26f8277189d67af16 none
outcome - none
request 7 sda low 0bc70aa8bd14617261 680c0c680702630bc70aa8bd14617261f516
hears 1 680c0c680702630bc70aa8bd14617261f516 e5 2
outcome e5 acked
outcome - none
stations 0 0 7 e317
request 7 sdn high 814b 68050568070046814b1916
outcome 100000121216 none
outcome - none
request 7 sdn high 03 68040468070046035016
hears 2 68040468070046035016 - 1
again -
outcome 100007091016 none
outcome - none
request 126 sdn low - 107e0044c216
hears 2 107e0044c216 - 1
again -
outcome - none
request 7 sda high 88a5640ede9df97c2b 680c0c6807006588a5640ede9df97c2b2616
hears 2 680c0c6807006588a5640ede9df97c2b2616 e5 2
again -
outcome e5 acked
stations 1 1 7 aabb
request 127 sdn high 6da8696a7483aa96 a27f01466da8696a7483aa96e516
hears 0 a27f01466da8696a7483aa96e516 - 1
request 7 srd high - 1007016d7516
hears 0 1007016d7516 6805056801070aaabb7716 2
outcome 10078736c416 none
outcome 6805056801070aaabb7716 data:aabb
stations 2 0 7 47
request 127 sdn low - 107f0244c516
hears 3 107f0244c516 - 1
outcome 107f0526aa16 none
again -
outcome - none
request 7 srd high adcd 6805056807026dadcdf016
hears 3 6805056807026dadcdf016 6804046802073a478a16 2
again -
outcome 6804046802073a478a16 data:47
request 7 sdn low - 100702444d16
outcome - none
stations 1 4 7 aabb
request 0 sdn low a6dbbe4b6ede4115 a2000144a6dbbe4b6ede41157116
hears 3 a2000144a6dbbe4b6ede41157116 - 0
outcome - none
outcome - none
request 7 srd low d64f 6805056807016cd64f9916
hears 3 6805056807016cd64f9916 68050568010738aabba516 1
outcome 68050568010738aabba516 data:aabb
request 127 sdn high - 107f0146c616
hears 3 107f0146c616 - 2
outcome e5 none
outcome - none
request 127 sdn high 4342503f1f82826f68 680c0c687f01464342503f1f82826f68d416
outcome - none
stations 1 1 7 -
request 7 srd high ceebb937f4e164b1 a207016dceebb937f4e164b10816
hears 1 a207016dceebb937f4e164b10816 100107192116 1
hears 1 107f0140c016 - 1
outcome 100107192116 acked
request 7 sda low - 100701535b16
hears 1 100701535b16 e5 2
outcome e5 acked
stations 126 2 7 -
request 7 srd high 5d79a1372dd053a392 680c0c68077e6d5d79a1372dd053a3922516
hears 1 680c0c68077e6d5d79a1372dd053a3922516 107e07199e16 1
outcome 680404687e0728742116 data:74
outcome - none
request 7 sdn low - 10077e44c916
hears 1 10077e44c916 - 2
outcome a27e7e28bc30583f24122ddfe916 none
outcome - none
request 7 srd low - 10077e5ce116
hears 1 10077e5ce116 107e07199e16 3
outcome - noanswer
outcome 107e07199e16 none
stations 2 7 7 -
request 0 sda low - 100002636516
hears 0 100002636516 - 0
outcome - noanswer
request 127 sdn low ffbf2967ded8f7d102 680c0c687f0244ffbf2967ded8f7d1029316
outcome 680c0c6802053bdbb0867d7e1cf5760be016 none
outcome - none
stations 126 2 7 01
request 127 sdn high 99419750410f5f321c 680c0c687f7e4699419750410f5f321c0116
hears 0 680c0c687f7e4699419750410f5f321c0116 - 1
outcome - none
request 127 sdn low - 107f7e444116
hears 0 107f7e444116 - 2
outcome - none
request 7 srd low - 10077e6cf116
outcome - noanswer
request 7 srd high cf 68040468077e6dcfc116
hears 0 68040468077e6dcfc116 680404687e070a019016 3
again 68040468077e6dcfc116
hears 0 68040468077e6dcfc116 680404687e070a019016 4
outcome - noanswer
stations 126 1 7 0001020304050607
request 127 sdn high 9c41 680505687f7e469c412016
hears 0 680505687f7e469c412016 - 1
again -
outcome - none
request 7 srd low b22c69a5b623a4ac a2077e6cb22c69a5b623a4ac0616
hears 0 a2077e6cb22c69a5b623a4ac0616 a27e07080001020304050607a916 2
request 7 sdn low bcaa 68050568077e44bcaa2f16
hears 0 68050568077e44bcaa2f16 - 3
outcome - none
request 0 srd low - 10007e6cea16
hears 0 10007e6cea16 - 3
hears 0 107f7e535016 - 3
outcome - noanswer
stations 1 6 7 a200
request 7 srd high f2 6804046807016df26716
hears 0 6804046807016df26716 6805056801070aa200b416 1
outcome 1007072d3b16 none
outcome 6805056801070aa200b416 data:a200
request 127 sdn high 3867209796dc5fdf a27f01463867209796dc5fdfcc16
hears 0 a27f01463867209796dc5fdfcc16 - 2
outcome - none
stations 1 2 7 01
request 127 sdn low - 107f0144c416
hears 0 107f0144c416 - 1
again -
outcome 68040468010515b3ce16 none
outcome - none
request 7 sda low - 100701636b16
hears 0 100701636b16 e5 2
outcome e5 acked
request 0 srd low 2f239156a4b6bc406c 680c0c6800016c2f239156a4b6bc406c6816
hears 0 680c0c6800016c2f239156a4b6bc406c6816 - 2
outcome 6804046801001dfc1a16 data:fc
outcome - none
stations 0 1 7 01
request 7 srd low d1 6804046807006cd14416
hears 2 6804046807006cd14416 68040468000728013016 1
again 6804046807006cd14416
outcome - noanswer
request 127 sdn low - 107f0044c316
hears 2 107f0044c316 - 2
outcome 100005282d16 none
hears 2 1087097a0a16 - 2
outcome - none
stations 17 0 7 01
request 7 srd high b9717f74ee5238f991 680c0c6807116db9717f74ee5238f991a416
outcome - noanswer
request 7 srd low 5d 6804046807116c5de116
outcome - noanswer
outcome - none
request 7 sdn high 93 6804046807114693f116
outcome - none
outcome - none
stations 17 2 7 aabb
request 7 srd low - 1007116c8416
outcome 680c0c687f0701a3e05db40dfe717f829816 none
outcome - noanswer
request 7 sda high - 100711657d16
hears 3 100711657d16 e5 1
outcome - noanswer
again -
outcome - none
stations 2 2 7 -
request 7 srd high e6ec5774e089e188a6 680c0c6807026de6ec5774e089e188a68b16
hears 0 10078271fa16 - 0
again 680c0c6807026de6ec5774e089e188a68b16
hears 0 680c0c6807026de6ec5774e089e188a68b16 100207091216 1
outcome 100207091216 acked
request 7 srd high - 1007025d6616
hears 0 1007025d6616 100207091216 2
hears 0 6804046807826c9e9316 100207091216 3
outcome 100207091216 acked
request 127 sdn low d5 680404687f0244d59a16
hears 0 680404687f0244d59a16 - 4
outcome - none
stations 17 2 7 aabb
request 7 sda low - 100711637b16
hears 0 100711637b16 e5 1
outcome 101107334b16 noresource
outcome e5 none
outcome - none
request 0 srd low - 1000116c7d16
hears 0 1000116c7d16 - 1
again 1000116c7d16
hears 0 1000116c7d16 - 1
hears 0 68050568879165d6207316 101107031b16 2
outcome - noanswer
stations 17 2 7 01
request 0 sdn high be31bf66e0bb6d75 a2001146be31bf66e0bb6d75e816
hears 3 a2001146be31bf66e0bb6d75e816 - 0
outcome 680c0c681105293624aa729f23cd30db4f16 none
outcome - none
request 7 srd low - 1007116c8416
hears 3 1007116c8416 68040468110738015116 1
outcome 68040468110738015116 data:01
";
